// One id's row (rule 5.2): what the rules ask of its entries, and the row with one side emptied.

ghost use Rattle.std.specs.Prelude.{◌≡◌, None};
ghost use Rattle.lease.specs.Rows.{with_held, with_sent, unexploded, promise_timer, active_entry};

use lease::{Peer, Reading, Timer};
use timer::read::{active, exploded};

/// Drops the entries of both held tables.
pub fn drop_held(row: &mut Peer)
    ensures { row.new ≡ with_held row.old None None }
{
    row.guard_held = None;
    row.promise_held = None;
}

/// Drops the entries of both sent tables; the refresh mark outlives them (rule 1.7).
pub fn drop_sent(row: &mut Peer)
    ensures { row.new ≡ with_sent row.old None None row.old.refresh_mark }
{
    row.guard_sent = None;
    row.promise_sent = None;
}

/// Whether there is a timer that is not exploded: an unarmed one counts as not exploded (rule
/// 7.13).
pub fn is_unexploded(entry: Option<Timer>) -> bool
    ensures { result ≡ unexploded entry }
{
    entry.is_some_and(|timer| !exploded(timer))
}

/// The timer of a sent promise, without its flag whether it is being revoked.
pub fn promise_timer(promise: Option<(Timer, bool)>) -> Option<Timer>
    ensures { result ≡ promise_timer promise }
{
    promise.map(|(timer, _)| timer)
}

/// Whether there is a timer that is active at the reading (rule 4.4).
pub fn is_active(now: Reading, entry: Option<Timer>) -> bool
    ensures { result ≡ active_entry now entry }
{
    entry.is_some_and(|timer| active(now, timer))
}

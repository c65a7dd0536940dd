// An advance on the rows whose timers are due, where the sets of a look at all rows say which they are
// (rule 8.2).

ghost use Rattle.std.specs.Prelude.{◌≡◌, ◌≤◌};
ghost use Rattle.lease.specs.Bitmaps.{capacity};
ghost use Rattle.lease.specs.Passes.{advance_row, expired_entry, pass_over};
ghost use Rattle.peer_rows.specs.Marks.{marks_of};
ghost use Rattle.peer_rows.specs.Rules.{advance_pass};

use crate::pass::Marks;
use bitmap::is_one;
use lease::{Peer, ROWS, Reading, ReplicaId, Timer};
use timer::read::expire;

// Explodes the entry's timer if its deadline is reached (rule 4.5).
fn explode_entry(to: Reading, entry: &mut Option<Timer>)
    ensures { entry.new ≡ expired_entry to entry.old }
{
    *entry = entry.map(|timer| expire(to, timer).timer);
}

/// Explodes the timers of a row that are due at the reading; whether a sent promise is being revoked
/// stays (rules 8.1, 8.2).
pub fn explode_row(to: Reading, row: &mut Peer)
    ensures { row.new ≡ (advance_row to row.old).peer }
{
    explode_entry(to, &mut row.guard_sent);
    row.promise_sent = row
        .promise_sent
        .map(|(timer, revoking)| (expire(to, timer).timer, revoking));
    explode_entry(to, &mut row.guard_held);
    explode_entry(to, &mut row.promise_held);
}

/// Explodes the timers that are due at the reading, those of the two sets: only the rows of their ids
/// are looked at.
pub fn explode(rows: &mut [Peer; ROWS], me: ReplicaId, n: usize, to: Reading, due: Marks)
    requires n_le_capacity { n ≤ capacity }
    requires sets { due ≡ marks_of (pass_over (advance_pass to) me n rows.old) }
    ensures { rows.new ≡ (pass_over (advance_pass to) me n rows.old).peers }
{
    let ids = due.either();
    if ids.bits == 0 {
        return;
    }
    for i in 0..n {
        if is_one(ids, i) {
            explode_row(to, &mut rows[i]);
        }
    }
}

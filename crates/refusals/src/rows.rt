// Refusal 15 on one row: its timers and sides, or that it is empty (rules 5.2, 10.15).

ghost use Rattle.std.specs.Prelude.{◌≡◌};
ghost use Rattle.lease.specs.RecordCheck.{row_valid, row_empty, row_valid_at};

use crate::entries::{is_valid_entry, is_valid_grant, is_valid_sent_guard};
use lease::{Manager, Peer, Reading};

// Each timer is valid, and the peer is not in both tables of one side.
#[tactic(auto, unfolding(lease::specs::RecordCheck::row_valid))]
fn is_valid_row(now: Reading, row: &Peer) -> bool
    ensures { result ≡ row_valid now row.now }
{
    let timers = is_valid_sent_guard(row.guard_sent)
        && is_valid_grant(now, row.promise_sent)
        && is_valid_entry(now, row.guard_held)
        && is_valid_entry(now, row.promise_held);
    let sent = row.guard_sent.is_none() || row.promise_sent.is_none();
    let held = row.guard_held.is_none() || row.promise_held.is_none();
    timers && sent && held
}

// No entry and no mark.
#[tactic(auto, unfolding(lease::specs::RecordCheck::row_empty))]
fn is_empty_row(row: &Peer) -> bool
    ensures { result ≡ row_empty row.now }
{
    let sent = row.guard_sent.is_none() && row.promise_sent.is_none();
    let held = row.guard_held.is_none() && row.promise_held.is_none();
    !row.refresh_mark && sent && held
}

/// The row of the id `i`: a peer's, or, of the own id and from the population on, one that must be
/// empty.
#[tactic(auto, unfolding(lease::specs::RecordCheck::row_valid_at))]
pub fn is_valid_at(m: &Manager, i: usize, row: &Peer) -> bool
    ensures { result ≡ row_valid_at m.entry.now.me m.entry.now.population m.entry.now.now i row.now }
{
    if i < m.population && i != m.me {
        is_valid_row(m.now, row)
    } else {
        is_empty_row(row)
    }
}

// The reading from which the rows have a timer that is due: an advance to one below it leaves every
// row as it is (rule 4.5).

ghost use Rattle.std.specs.Prelude.{◌≡◌, ◌≤◌};
ghost use Rattle.lease.specs.Bitmaps.{capacity};
ghost use Rattle.peer_rows.specs.Due.{entry_due, row_due, rows_due};

use crate::entries::promise_timer;
use lease::{Peer, ROWS, Timer};

// The entry's deadline, if it is armed.
fn entry_due(entry: Option<Timer>) -> u64
    ensures { result ≡ entry_due entry }
{
    match entry {
        Some(Timer::Armed(deadline)) => deadline.0,
        _ => u64::MAX,
    }
}

/// The earliest deadline of the row, in ns; the largest number where none of its timers is armed. A
/// manager's sent guards are unarmed (rule 5.3), and are not asked.
#[tactic(auto, unfolding(crate::specs::Due::row_due))]
pub fn row_due(row: &Peer) -> u64
    ensures { result ≡ row_due row.now }
{
    let held = entry_due(row.guard_held).min(entry_due(row.promise_held));
    entry_due(promise_timer(row.promise_sent)).min(held)
}

/// The earliest deadline of the rows of the ids below `n`.
pub fn rows_due(rows: &[Peer; ROWS], n: usize) -> u64
    requires { n ≤ capacity }
    ensures { result ≡ rows_due n rows.now }
{
    let mut earliest = u64::MAX;
    for row in &rows[..n] {
        earliest = earliest.min(row_due(row));
    }
    earliest
}

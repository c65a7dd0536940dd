// Refusal 15 on the entries of one row: each timer by itself, and its deadline (rules 5.3, 10.15).

ghost use Rattle.std.specs.Prelude.{◌≡◌};
ghost use Rattle.lease.specs.RecordCheck.{deadline_valid, sent_guard_valid, timer_valid, entry_valid, grant_valid};

use lease::{Reading, Timer};

// How far past the reading a deadline may be, in ns: 3,000 s.
const FARTHEST: u64 = 3_000_000_000_000;

/// A deadline of an unexploded timer is above the reading and at most 3,000 s past it.
pub fn is_valid_deadline(now: Reading, deadline: Reading) -> bool
    ensures { result ≡ deadline_valid now deadline }
{
    now < deadline && deadline.0 - now.0 <= FARTHEST
}

/// A sent guard is neither armed nor exploded.
pub fn is_valid_sent_guard(entry: Option<Timer>) -> bool
    ensures { result ≡ sent_guard_valid entry }
{
    entry.is_none_or(|timer| matches!(timer, Timer::Unarmed))
}

// No timer of another table is unarmed.
fn is_valid_timer(now: Reading, timer: Timer) -> bool
    ensures { result ≡ timer_valid now timer }
{
    match timer {
        Timer::Unarmed => false,
        Timer::Armed(deadline) => is_valid_deadline(now, deadline),
        Timer::Exploded => true,
    }
}

/// An entry of a table other than the sent guards: no timer, or one that is armed in time or
/// exploded.
pub fn is_valid_entry(now: Reading, entry: Option<Timer>) -> bool
    ensures { result ≡ entry_valid now entry }
{
    entry.is_none_or(|timer| is_valid_timer(now, timer))
}

/// A sent promise: its timer as any entry; its flag may be either.
pub fn is_valid_grant(now: Reading, grant: Option<(Timer, bool)>) -> bool
    ensures { result ≡ grant_valid now grant }
{
    is_valid_entry(now, grant.map(|(timer, _)| timer))
}

// Refusal 15: whether a record is a manager's (rules 5.3, 10.15), which every call on a record
// looks at first.

ghost use Rattle.std.specs.Prelude.{◌≡◌, true, false, IfOk, IfErr};
ghost use Rattle.lease.specs.Bitmaps.{capacity};
ghost use Rattle.lease.specs.Clocks.{is_settable};
ghost use Rattle.lease.specs.RecordCheck.{quiet_valid, rows_valid, limits_valid, record_valid};
ghost use Rattle.lease.specs.declared.Refusal.TheVariants.{InvalidRecord};
ghost use Rattle.refusals.specs.Fits.{ManagerFits};

use crate::entries::is_valid_deadline;
use crate::limits::{is_valid_own, is_valid_population, is_valid_reading, is_valid_timeout};
use crate::rows::is_valid_at;
use drift::clocks::is_quotient;
use lease::{Clock, Manager, Refusal};

// The quiet timer's deadline, where there is one, as any other.
fn is_valid_quiet(m: &Manager) -> bool
    ensures { result ≡ quiet_valid m.entry.now.now m.entry.now.quiet_timer }
{
    m.quiet_timer
        .is_none_or(|deadline| is_valid_deadline(m.now, deadline))
}

// Each row as its id asks.
fn are_valid_rows(m: &Manager) -> bool
    ensures { result ≡ rows_valid m.entry.now.me m.entry.now.population m.entry.now.now m.entry.now.peers capacity }
{
    m.peers
        .iter()
        .enumerate()
        .all(|(i, row)| is_valid_at(m, i, row))
}

// Set-up's limits.
#[tactic(auto, unfolding(lease::specs::RecordCheck::limits_valid))]
fn are_valid_limits(m: &Manager) -> bool
    ensures { result ≡ limits_valid m.entry.now }
{
    is_valid_timeout(m.expire_timeout)
        && is_valid_population(m.population)
        && is_valid_own(m.me, m.population)
        && is_valid_reading(m.now)
}

// Some drift setting gives the clock.
fn is_valid_clock(clock: Clock) -> bool
    ensures { result ≡ is_settable clock }
{
    match clock {
        Clock::True => true,
        Clock::Drifting(q) => is_quotient(q),
    }
}

/// Whether the record is a manager's: limits, rows, clock and quiet timer.
#[tactic(auto, unfolding(lease::specs::RecordCheck::record_valid))]
pub fn is_valid_record(m: &Manager) -> bool
    ensures { result ≡ record_valid m.entry.now }
{
    are_valid_limits(m) && are_valid_rows(m) && is_valid_clock(m.clock) && is_valid_quiet(m)
}

/// Refusal 15 where the check does not pass the record; the numbers of one that passes are within
/// set-up's limits.
pub fn check_record(m: &Manager) -> Result<(), Refusal>
    ensures passed { IfOk result (λ nothing. (record_valid m.entry.now ≡ true) × ManagerFits m.entry.now) }
    ensures refused { IfErr result (λ refusal. (refusal ≡ InvalidRecord) × (record_valid m.entry.now ≡ false)) }
{
    if is_valid_record(m) {
        Ok(())
    } else {
        Err(Refusal::InvalidRecord)
    }
}

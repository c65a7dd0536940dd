// Each call on a lent record: its refusals first, 15 before the others (rule 10.30); a refused call
// leaves the record (rule 10.31).

ghost use Rattle.std.specs.Prelude.{◌≡◌};
ghost use Rattle.lease.specs.Rules.{notice_of, advance_of, quiet_of, refresh_of, drift_of, grant_set_of, lease_set_of, lease_cnt_of, time_left_of};

use crate::clock::{refresh, set_clock, start_quiet};
use crate::questions::{granted_ids, leased_count, leased_ids, left_of};
use crate::valid::{advance_valid, notice_valid};
use lease::{Advanced, Bitmap, LeaseNotice, LeaseNum, Lines, Manager, Reading, Refusal, ReplicaId};
use refusals::calls::{check_peer, check_refresh};
use refusals::records::check_record;

/// A notice under its number (rules 7.1 to 7.14). Refused with 15, then 7 and 8 of a notice about
/// one peer, 9 of NewGrants and DoRevoke.
#[tactic(auto, unfolding(lease::specs::Rules::notice_of))]
pub fn add_notice(m: &mut Manager, num: LeaseNum, notice: LeaseNotice) -> Result<Lines, Refusal>
    ensures answer { result ≡ (notice_of m.old num notice).outcome }
    ensures left { m.new ≡ (notice_of m.old num notice).manager }
{
    check_record(m)?;
    notice_valid(m, num, notice)
}

/// Advance to the reading (rules 8.1 to 8.4). Refused with 15, then 5 and 6.
#[tactic(auto, unfolding(lease::specs::Rules::advance_of))]
pub fn advance(m: &mut Manager, to: Reading) -> Result<Advanced, Refusal>
    ensures answer { result ≡ (advance_of m.old to).outcome }
    ensures left { m.new ≡ (advance_of m.old to).manager }
{
    check_record(m)?;
    advance_valid(m, to)
}

/// Quiet time starts (rule 8.4). Refused with 15.
#[tactic(auto, using(refusals::proofs::Laws::fits), unfolding(lease::specs::Rules::quiet_of))]
pub fn assume_unknown_grants(m: &mut Manager) -> Result<(), Refusal>
    ensures answer { result ≡ (quiet_of m.old).outcome }
    ensures left { m.new ≡ (quiet_of m.old).manager }
{
    check_record(m)?;
    start_quiet(m);
    Ok(())
}

/// The promises to the marked peers of the set are extended (rule 8.5). Refused with 15, then 12.
#[tactic(auto, using(refusals::proofs::Laws::fits, crate::proofs::CallsLaws::near), unfolding(lease::specs::Rules::refresh_of))]
pub fn attempt_refresh(m: &mut Manager, set: Option<Bitmap>) -> Result<Bitmap, Refusal>
    ensures answer { result ≡ (refresh_of m.old set).outcome }
    ensures left { m.new ≡ (refresh_of m.old set).manager }
{
    check_record(m)?;
    check_refresh(set)?;
    Ok(refresh(m, set))
}

/// The drift setting, in percent; none is a true clock (rule 8.6). Refused with 15.
#[tactic(auto, unfolding(lease::specs::Rules::drift_of))]
pub fn set_drift(m: &mut Manager, setting: Option<i8>) -> Result<(), Refusal>
    ensures answer { result ≡ (drift_of m.old setting).outcome }
    ensures left { m.new ≡ (drift_of m.old setting).manager }
{
    check_record(m)?;
    set_clock(m, setting);
    Ok(())
}

/// The grant set (rule 9.1). Refused with 15.
#[tactic(auto, using(crate::proofs::CallsLaws::few), unfolding(lease::specs::Rules::grant_set_of))]
pub fn grant_set(m: &Manager) -> Result<Bitmap, Refusal>
    ensures { result ≡ grant_set_of m.entry.now }
{
    check_record(m)?;
    Ok(granted_ids(m))
}

/// The lease set (rule 9.2). Refused with 15.
#[tactic(auto, using(crate::proofs::CallsLaws::few), unfolding(lease::specs::Rules::lease_set_of))]
pub fn lease_set(m: &Manager) -> Result<Bitmap, Refusal>
    ensures { result ≡ lease_set_of m.entry.now }
{
    check_record(m)?;
    Ok(leased_ids(m))
}

/// The lease count (rule 9.3). Refused with 15.
#[tactic(auto, using(crate::proofs::CallsLaws::few), unfolding(lease::specs::Rules::lease_cnt_of))]
pub fn lease_cnt(m: &Manager) -> Result<u64, Refusal>
    ensures { result ≡ lease_cnt_of m.entry.now }
{
    check_record(m)?;
    Ok(leased_count(m))
}

/// Time left of the promise held from a peer, in ms (rule 9.4). Refused with 15, then 7 and 8.
#[tactic(auto, using(crate::proofs::CallsLaws::few), unfolding(lease::specs::Rules::time_left_of))]
pub fn time_left(m: &Manager, id: ReplicaId) -> Result<Option<u64>, Refusal>
    ensures { result ≡ time_left_of m.entry.now id }
{
    check_record(m)?;
    check_peer(m.population, m.me, id)?;
    Ok(left_of(m, id))
}

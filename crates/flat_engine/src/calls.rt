// Each call on a flat record that refusal 15 lets through, where it stands: its other refusals first (rule 10.30); a refused call leaves the
// record (rule 10.31).

ghost use Rattle.std.specs.Prelude.{◌≡◌};
ghost use Rattle.lease.specs.Rules.{notice_of, advance_of, quiet_of, refresh_of, drift_of, grant_set_of, lease_set_of, lease_cnt_of, time_left_of};
ghost use Rattle.wire.specs.Flat.{flat_of};
ghost use Rattle.wire.specs.FromFlat.{manager_of};
ghost use Rattle.flat_engine.specs.FlatRows.{FlatSound};

use crate::clock::{advance_to, refresh, set_clock, start_quiet};
use crate::notices::run;
use crate::questions::{granted_ids, leased_count, leased_ids, left_of};
use lease::{Advanced, Bitmap, LeaseNotice, LeaseNum, Lines, Reading, Refusal, ReplicaId};
use refusals::calls::{check_advance, check_notice, check_peer, check_refresh};
use wire::flat::ManagerC;

/// A notice under its number (rules 7.1 to 7.14), refused with 7 and 8 of a notice about one peer, 9 of NewGrants and DoRevoke.
#[tactic(auto, using(crate::proofs::Sound::sound_fits, engine::proofs::Laws::notice_below), unfolding(lease::specs::Rules::notice_of, wire::specs::FromFlat::manager_of))]
pub fn add_notice(f: &mut ManagerC, num: LeaseNum, notice: LeaseNotice) -> Result<Lines, Refusal>
    requires { FlatSound f.old }
    ensures answer { result ≡ (notice_of (manager_of f.old) num notice).outcome }
    ensures left { f.new ≡ flat_of (notice_of (manager_of f.old) num notice).manager }
{
    check_notice(f.population, f.me, notice)?;
    Ok(run(f, num, notice))
}

/// Advance to the reading (rules 8.1 to 8.4), refused with 5 and 6.
#[tactic(auto, using(crate::proofs::Sound::sound_fits), unfolding(lease::specs::Rules::advance_of, wire::specs::FromFlat::manager_of))]
pub fn advance(f: &mut ManagerC, to: Reading) -> Result<Advanced, Refusal>
    requires { FlatSound f.old }
    ensures answer { result ≡ (advance_of (manager_of f.old) to).outcome }
    ensures left { f.new ≡ flat_of (advance_of (manager_of f.old) to).manager }
{
    check_advance(Reading(f.now), to)?;
    Ok(advance_to(f, to))
}

/// Quiet time starts (rule 8.4); it is not refused.
#[tactic(auto, using(crate::proofs::Sound::sound_fits), unfolding(lease::specs::Rules::quiet_of))]
pub fn assume_unknown_grants(f: &mut ManagerC) -> Result<(), Refusal>
    requires { FlatSound f.old }
    ensures answer { result ≡ (quiet_of (manager_of f.old)).outcome }
    ensures left { f.new ≡ flat_of (quiet_of (manager_of f.old)).manager }
{
    start_quiet(f);
    Ok(())
}

/// The promises to the marked peers of the set are extended (rule 8.5), refused with 12.
#[tactic(auto, using(crate::proofs::Sound::sound_fits, engine::proofs::CallsLaws::near), unfolding(lease::specs::Rules::refresh_of))]
pub fn attempt_refresh(f: &mut ManagerC, set: Option<Bitmap>) -> Result<Bitmap, Refusal>
    requires { FlatSound f.old }
    ensures answer { result ≡ (refresh_of (manager_of f.old) set).outcome }
    ensures left { f.new ≡ flat_of (refresh_of (manager_of f.old) set).manager }
{
    check_refresh(set)?;
    Ok(refresh(f, set))
}

/// The drift setting, in percent; none is a true clock (rule 8.6). It is not refused.
#[tactic(auto, using(crate::proofs::Sound::sound_fits), unfolding(lease::specs::Rules::drift_of))]
pub fn set_drift(f: &mut ManagerC, setting: Option<i8>) -> Result<(), Refusal>
    requires { FlatSound f.old }
    ensures answer { result ≡ (drift_of (manager_of f.old) setting).outcome }
    ensures left { f.new ≡ flat_of (drift_of (manager_of f.old) setting).manager }
{
    set_clock(f, setting);
    Ok(())
}

/// The grant set (rule 9.1); it is not refused.
#[tactic(auto, using(crate::proofs::Sound::few), unfolding(lease::specs::Rules::grant_set_of))]
pub fn grant_set(f: &ManagerC) -> Result<Bitmap, Refusal>
    requires { FlatSound f.now }
    ensures { result ≡ grant_set_of (manager_of f.entry.now) }
{
    Ok(granted_ids(f))
}

/// The lease set (rule 9.2); it is not refused.
#[tactic(auto, using(crate::proofs::Sound::few), unfolding(lease::specs::Rules::lease_set_of))]
pub fn lease_set(f: &ManagerC) -> Result<Bitmap, Refusal>
    requires { FlatSound f.now }
    ensures { result ≡ lease_set_of (manager_of f.entry.now) }
{
    Ok(leased_ids(f))
}

/// The lease count (rule 9.3); it is not refused.
#[tactic(auto, using(crate::proofs::Sound::few), unfolding(lease::specs::Rules::lease_cnt_of))]
pub fn lease_cnt(f: &ManagerC) -> Result<u64, Refusal>
    requires { FlatSound f.now }
    ensures { result ≡ lease_cnt_of (manager_of f.entry.now) }
{
    Ok(leased_count(f))
}

/// Time left of the promise held from a peer, in ms (rule 9.4), refused with 7 and 8.
#[tactic(auto, using(crate::proofs::Sound::few), unfolding(lease::specs::Rules::time_left_of, wire::specs::FromFlat::manager_of))]
pub fn time_left(f: &ManagerC, id: ReplicaId) -> Result<Option<u64>, Refusal>
    requires { FlatSound f.now }
    ensures { result ≡ time_left_of (manager_of f.entry.now) id }
{
    check_peer(f.population, f.me, id)?;
    Ok(left_of(f, id))
}

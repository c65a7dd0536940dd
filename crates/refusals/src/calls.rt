// Each call's own refusals, which are looked at after 15, in the order of rule 10.30.

ghost use Rattle.std.specs.Prelude.{◌≡◌};
ghost use Rattle.lease.specs.Refusals.{peer_refusal, set_refusal, notice_refusal, advance_refusal, refresh_refusal};

use crate::limits::is_valid_reading;
use bitmap::bad_size;
use lease::{Bitmap, LeaseNotice, Reading, Refusal, ReplicaId};

/// A notice about one peer, and time left: 7 if the id is not below the population, then 8 if it is
/// the own id (rules 10.7, 10.8).
pub fn check_peer(population: usize, me: ReplicaId, id: ReplicaId) -> Result<(), Refusal>
    ensures { result ≡ peer_refusal population me id }
{
    if population <= id {
        return Err(Refusal::PeerNotBelowPopulation);
    }
    if id == me {
        return Err(Refusal::PeerIsOwn);
    }
    Ok(())
}

// 9 if the size of a set is not the population (rule 10.9); no set has no size.
fn check_set(population: usize, set: Option<Bitmap>) -> Result<(), Refusal>
    ensures { result ≡ set_refusal population set }
{
    if set.is_none_or(|b| usize::from(b.size) == population) {
        Ok(())
    } else {
        Err(Refusal::SetSizeNotPopulation)
    }
}

/// A notice's own refusals: 9 of NewGrants and DoRevoke, 7 and 8 of a notice about one peer (rules
/// 10.7 to 10.9).
pub fn check_notice(population: usize, me: ReplicaId, notice: LeaseNotice) -> Result<(), Refusal>
    ensures { result ≡ notice_refusal population me notice }
{
    match notice {
        LeaseNotice::NewGrants(set, _) | LeaseNotice::DoRevoke(set) => check_set(population, set),
        LeaseNotice::ClearHeld => Ok(()),
        LeaseNotice::RecvLeaseMsg(id, _)
        | LeaseNotice::GrantTimeout(id)
        | LeaseNotice::LeaseTimeout(id) => check_peer(population, me, id),
    }
}

/// Advance: 5 if the reading is over the maximum, then 6 if it is below the present one; an equal
/// one is accepted (rules 10.5, 10.6).
pub fn check_advance(now: Reading, to: Reading) -> Result<(), Refusal>
    ensures { result ≡ advance_refusal now to }
{
    if !is_valid_reading(to) {
        return Err(Refusal::ReadingTooHigh);
    }
    if to < now {
        return Err(Refusal::ReadingBelowPresent);
    }
    Ok(())
}

/// A refresh: 12 if the set has no size that a set can have (rule 10.12). No set means all ids.
pub fn check_refresh(set: Option<Bitmap>) -> Result<(), Refusal>
    ensures { result ≡ refresh_refusal set }
{
    if set.is_some_and(|b| bad_size(b.size)) {
        Err(Refusal::SetSizeOutOfRange)
    } else {
        Ok(())
    }
}

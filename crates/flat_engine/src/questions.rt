// The questions on a flat record, which they only read (rules 9.1 to 9.4), as `engine::questions` on a manager's.

ghost use Rattle.std.specs.Prelude.{◌≡◌, ◌<◌, ◌≤◌};
ghost use Rattle.lease.specs.Bitmaps.{capacity};
ghost use Rattle.lease.specs.Calls.{grant_set, lease_set, lease_cnt, time_left};
ghost use Rattle.wire.specs.FromFlat.{manager_of};

use crate::rows::flat_sets_over;
use engine::clock::is_quiet;
use flat_record::from_flat::{peer_of, quiet_timer_by_flag};
use lease::{Bitmap, Reading, ReplicaId};
use peer_rows::each_row::{Everyone, Granted, Leased};
use timer::read::left_ms;
use wire::flat::ManagerC;

/// The grant set (rule 9.1).
#[tactic(auto, unfolding(lease::specs::Calls::grant_set, wire::specs::FromFlat::manager_of))]
pub fn granted_ids(f: &ManagerC) -> Bitmap
    requires { f.now.population ≤ capacity }
    ensures { result ≡ grant_set (manager_of f.entry.now) }
{
    if is_quiet(Reading(f.now), quiet_timer_by_flag(f.quiet, f.quiet_until)) {
        flat_sets_over(&f.peers, f.me, f.population, &Everyone).first
    } else {
        flat_sets_over(&f.peers, f.me, f.population, &Granted).first
    }
}

/// The lease set (rule 9.2).
#[tactic(auto, unfolding(lease::specs::Calls::lease_set, wire::specs::FromFlat::manager_of))]
pub fn leased_ids(f: &ManagerC) -> Bitmap
    requires { f.now.population ≤ capacity }
    ensures { result ≡ lease_set (manager_of f.entry.now) }
{
    let now = Reading(f.now);
    flat_sets_over(&f.peers, f.me, f.population, &Leased { now }).first
}

/// The lease count (rule 9.3).
#[tactic(auto, unfolding(lease::specs::Calls::lease_cnt, wire::specs::FromFlat::manager_of))]
pub fn leased_count(f: &ManagerC) -> u64
    requires { f.now.population ≤ capacity }
    ensures { result ≡ lease_cnt (manager_of f.entry.now) }
{
    let now = Reading(f.now);
    1 + flat_sets_over(&f.peers, f.me, f.population, &Leased { now }).count
}

/// Time left of the promise held from a peer, in whole ms rounded up; none without one (rule 9.4).
#[tactic(auto, unfolding(wire::specs::FromFlat::manager_of))]
pub fn left_of(f: &ManagerC, id: ReplicaId) -> Option<u64>
    requires { id < capacity }
    ensures { result ≡ time_left (manager_of f.entry.now) id }
{
    peer_of(f.peers[id])
        .promise_held
        .map(|promise| left_ms(Reading(f.now), promise))
}

// The questions on a record that is not refused, which they only read (rules 9.1 to 9.4).

ghost use Rattle.std.specs.Prelude.{◌≡◌, ◌<◌, ◌≤◌};
ghost use Rattle.lease.specs.Bitmaps.{capacity};
ghost use Rattle.lease.specs.Calls.{grant_set, lease_set, lease_cnt, time_left};

use crate::clock::is_quiet;
use lease::{Bitmap, Manager, ReplicaId};
use peer_rows::each_row::{Everyone, Granted, Leased};
use peer_rows::pass::sets_over;
use timer::read::left_ms;

/// The grant set (rule 9.1): all but the own id in quiet time, else the peers with a promise sent.
#[tactic(auto, unfolding(lease::specs::Calls::grant_set))]
pub fn granted_ids(m: &Manager) -> Bitmap
    requires { m.now.population ≤ capacity }
    ensures { result ≡ grant_set m.entry.now }
{
    if is_quiet(m.now, m.quiet_timer) {
        sets_over(&m.peers, m.me, m.population, &Everyone).first
    } else {
        sets_over(&m.peers, m.me, m.population, &Granted).first
    }
}

/// The lease set (rule 9.2): the peers whose held promises are active.
#[tactic(auto, unfolding(lease::specs::Calls::lease_set))]
pub fn leased_ids(m: &Manager) -> Bitmap
    requires { m.now.population ≤ capacity }
    ensures { result ≡ lease_set m.entry.now }
{
    sets_over(&m.peers, m.me, m.population, &Leased { now: m.now }).first
}

/// The lease count (rule 9.3): one more than the size of the lease set.
#[tactic(auto, unfolding(lease::specs::Calls::lease_cnt))]
pub fn leased_count(m: &Manager) -> u64
    requires { m.now.population ≤ capacity }
    ensures { result ≡ lease_cnt m.entry.now }
{
    1 + sets_over(&m.peers, m.me, m.population, &Leased { now: m.now }).count
}

/// Time left of the promise held from a peer, in whole ms rounded up; none without one (rule 9.4).
pub fn left_of(m: &Manager, id: ReplicaId) -> Option<u64>
    requires { id < capacity }
    ensures { result ≡ time_left m.entry.now id }
{
    m.peers[id]
        .promise_held
        .map(|promise| left_ms(m.now, promise))
}

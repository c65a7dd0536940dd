// The questions, which change nothing (rules 9.1 to 9.5): the Rust's `grant_set`, `lease_set` and
// `lease_cnt`, and time left.

ghost use Rattle.std.specs.Prelude.{◌≡◌};
ghost use Rattle.lease.specs.Rules.{grant_set_of, lease_set_of, lease_cnt_of, time_left_of};
ghost use Rattle.lease.specs.Numbers.{number_of, plain_number, time_left_number};

use engine::calls;
use lease::{Bitmap, Manager, Refusal, ReplicaId};

/// All but the own id in quiet time, else the peers with a promise sent (rule 9.1). Refused with 15
/// (rule 10.15).
#[tactic(auto, using(lease::proofs::NumbersLemmas::grant_set_numbered))]
pub fn grant_set(m: Manager) -> Result<Bitmap, Refusal>
    ensures answer { result ≡ grant_set_of m }
    ensures number { number_of result ≡ plain_number m }
{
    calls::grant_set(&m)
}

/// The peers whose held promises are active (rule 9.2). Refused with 15 (rule 10.15).
#[tactic(auto, using(lease::proofs::NumbersLemmas::lease_set_numbered))]
pub fn lease_set(m: Manager) -> Result<Bitmap, Refusal>
    ensures answer { result ≡ lease_set_of m }
    ensures number { number_of result ≡ plain_number m }
{
    calls::lease_set(&m)
}

/// One more than the size of the lease set (rule 9.3). Refused with 15 (rule 10.15).
#[tactic(auto, using(lease::proofs::NumbersLemmas::lease_cnt_numbered))]
pub fn lease_cnt(m: Manager) -> Result<u64, Refusal>
    ensures answer { result ≡ lease_cnt_of m }
    ensures number { number_of result ≡ plain_number m }
{
    calls::lease_cnt(&m)
}

/// Time left of the promise held from a peer, in whole ms rounded up; none without one (rule 9.4).
/// Refused with 15, then 7 and 8 (rules 10.7, 10.8, 10.15).
#[tactic(auto, using(lease::proofs::NumbersLemmas::time_left_numbered))]
pub fn time_left(m: Manager, id: ReplicaId) -> Result<Option<u64>, Refusal>
    ensures answer { result ≡ time_left_of m id }
    ensures number { number_of result ≡ time_left_number m id }
{
    calls::time_left(&m, id)
}

// The Rust's `assume_unknown_grants` and `attempt_refresh`, by value (rules 8.4, 8.5).

ghost use Rattle.std.specs.Prelude.{◌≡◌};
ghost use Rattle.lease.specs.Rules.{quiet_of, refresh_of};
ghost use Rattle.lease.specs.Numbers.{number_of, plain_number, refresh_number};

use engine::calls;
use lease::{Answered, Bitmap, Manager};

/// Quiet time starts: what was granted before set-up is not known (rule 8.4). Refused with 15 (rule
/// 10.15).
#[tactic(auto, using(lease::proofs::NumbersLemmas::quiet_numbered))]
pub fn assume_unknown_grants(m: Manager) -> Answered<()>
    ensures answer { result ≡ quiet_of m }
    ensures number { number_of result.outcome ≡ plain_number m }
{
    let mut manager = m;
    let outcome = calls::assume_unknown_grants(&mut manager);
    Answered { outcome, manager }
}

/// Extends the promises to the marked peers that the set has, and answers to which; no set means
/// all (rule 8.5). Refused with 15, then 12 (rules 10.12, 10.15).
#[tactic(auto, using(lease::proofs::NumbersLemmas::refresh_numbered))]
pub fn attempt_refresh(m: Manager, set: Option<Bitmap>) -> Answered<Bitmap>
    ensures answer { result ≡ refresh_of m set }
    ensures number { number_of result.outcome ≡ refresh_number m set }
{
    let mut manager = m;
    let outcome = calls::attempt_refresh(&mut manager, set);
    Answered { outcome, manager }
}

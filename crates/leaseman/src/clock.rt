// The calls about the clock, by value: advance and the drift setting (rules 8.1 to 8.4, 8.6).

ghost use Rattle.std.specs.Prelude.{◌≡◌};
ghost use Rattle.lease.specs.Rules.{advance_of, drift_of};
ghost use Rattle.lease.specs.Numbers.{number_of, advance_number, plain_number};

use engine::calls;
use lease::{Advanced, Answered, Manager, Reading};

/// Sets the reading, and answers which timers explode at it, in place of the Rust's sleeper tasks
/// (rules 8.1 to 8.4). Refused with 15, then 5 and 6 (rules 10.5, 10.6, 10.15).
#[tactic(auto, using(lease::proofs::NumbersLemmas::advance_numbered))]
pub fn advance(m: Manager, to: Reading) -> Answered<Advanced>
    ensures answer { result ≡ advance_of m to }
    ensures number { number_of result.outcome ≡ advance_number m to }
{
    let mut manager = m;
    let outcome = calls::advance(&mut manager, to);
    Answered { outcome, manager }
}

/// Sets how the clock drifts, in percent; none is a true clock (rule 8.6). It stands for the Rust's
/// global fault state. Refused with 15 (rule 10.15).
#[tactic(auto, using(lease::proofs::NumbersLemmas::drift_numbered))]
pub fn set_drift(m: Manager, setting: Option<i8>) -> Answered<()>
    ensures answer { result ≡ drift_of m setting }
    ensures number { number_of result.outcome ≡ plain_number m }
{
    let mut manager = m;
    let outcome = calls::set_drift(&mut manager, setting);
    Answered { outcome, manager }
}

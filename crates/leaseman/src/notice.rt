// The Rust's `add_notice`, by value (rules 7.1 to 7.14).

ghost use Rattle.std.specs.Prelude.{◌≡◌};
ghost use Rattle.lease.specs.Rules.{notice_of};
ghost use Rattle.lease.specs.Numbers.{number_of, notice_number};

use engine::calls;
use lease::{Answered, LeaseNotice, LeaseNum, Lines, Manager};

/// Hands a notice in under its number, and answers its lines at once, which the Rust's `get_action`
/// gives one by one. Refused with 15, then 7 and 8 of a notice about one peer, 9 of NewGrants and
/// DoRevoke (rules 10.7 to 10.9, 10.15); a refused notice never raises the number (rule 10.31).
#[tactic(auto, using(lease::proofs::NumbersLemmas::notice_numbered))]
pub fn add_notice(m: Manager, num: LeaseNum, notice: LeaseNotice) -> Answered<Lines>
    ensures answer { result ≡ notice_of m num notice }
    ensures number { number_of result.outcome ≡ notice_number m notice }
{
    let mut manager = m;
    let outcome = calls::add_notice(&mut manager, num, notice);
    Answered { outcome, manager }
}

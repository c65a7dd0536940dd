// A notice and an advance on a record that refusal 15 lets through, and that each leaves so again:
// a run of many looks at the record once.

ghost use Rattle.std.specs.Prelude.{◌≡◌, true, IfErr};
ghost use Rattle.lease.specs.RecordCheck.{record_valid};
ghost use Rattle.lease.specs.Rules.{notice_of, advance_of};

use crate::clock::advance_to;
use crate::notices::run;
use lease::{Advanced, LeaseNotice, LeaseNum, Lines, Manager, Reading, Refusal};
use refusals::calls::{check_advance, check_notice};

/// A notice under its number (rules 7.1 to 7.14), refused as `calls::add_notice`, but for 15.
#[tactic(auto, using(refusals::proofs::Laws::fits, crate::proofs::Laws::notice_below, crate::proofs::Laws::notice_keeps), unfolding(lease::specs::Rules::notice_of))]
pub fn notice_valid(m: &mut Manager, num: LeaseNum, notice: LeaseNotice) -> Result<Lines, Refusal>
    requires { record_valid m.old ≡ true }
    ensures answer { result ≡ (notice_of m.old num notice).outcome }
    ensures left { m.new ≡ (notice_of m.old num notice).manager }
    ensures valid { record_valid m.new ≡ true }
    ensures refused { IfErr result (λ k. m.new ≡ m.old) }
{
    check_notice(m.population, m.me, notice)?;
    Ok(run(m, num, notice))
}

/// Advance to the reading (rules 8.1 to 8.4), refused as `calls::advance`, but for 15.
#[tactic(auto, using(refusals::proofs::Laws::fits, crate::proofs::Laws::advance_keeps), unfolding(lease::specs::Rules::advance_of))]
pub fn advance_valid(m: &mut Manager, to: Reading) -> Result<Advanced, Refusal>
    requires { record_valid m.old ≡ true }
    ensures answer { result ≡ (advance_of m.old to).outcome }
    ensures left { m.new ≡ (advance_of m.old to).manager }
    ensures valid { record_valid m.new ≡ true }
    ensures refused { IfErr result (λ k. m.new ≡ m.old) }
{
    check_advance(m.now, to)?;
    Ok(advance_to(m, to))
}

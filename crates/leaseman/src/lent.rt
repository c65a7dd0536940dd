// A notice and advance on a lent record (rule 8.7): the host lends the manager's record and finds
// it changed. Each calls the by-value core on a copy.

ghost use Rattle.std.specs.Prelude.{◌≡◌};
ghost use Rattle.lease.specs.Rules.{notice_of, advance_of};
ghost use Rattle.lease.specs.Numbers.{number_of, notice_number, advance_number};

use crate::clock::advance;
use crate::notice::add_notice;
use lease::{Advanced, LeaseNotice, LeaseNum, Lines, Manager, Reading, Refusal};

/// `add_notice` on a lent record; refused as that, and the record then stays (rule 10.31).
pub fn add_notice_lent(
    m: &mut Manager,
    num: LeaseNum,
    notice: LeaseNotice,
) -> Result<Lines, Refusal>
    ensures answer { result ≡ (notice_of m.old num notice).outcome }
    ensures left { m.new ≡ (notice_of m.old num notice).manager }
    ensures number { number_of result ≡ notice_number m.old notice }
{
    let noticed = add_notice(*m, num, notice);
    *m = noticed.manager;
    noticed.outcome
}

/// `advance` on a lent record; refused as that, and the record then stays (rule 10.31).
pub fn advance_lent(m: &mut Manager, to: Reading) -> Result<Advanced, Refusal>
    ensures answer { result ≡ (advance_of m.old to).outcome }
    ensures left { m.new ≡ (advance_of m.old to).manager }
    ensures number { number_of result ≡ advance_number m.old to }
{
    let advanced = advance(*m, to);
    *m = advanced.manager;
    advanced.outcome
}

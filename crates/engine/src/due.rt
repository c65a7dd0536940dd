// Notices and advances of a run that carries, with the record, a reading below which none of its
// timers is due: an advance to one below it looks at no row.

ghost use Rattle.std.specs.Prelude.{◌≡◌, ◌<◌, true, Ok, IfErr, OnOk};
ghost use Rattle.lease.specs.Bitmaps.{capacity};
ghost use Rattle.lease.specs.RecordCheck.{record_valid};
ghost use Rattle.lease.specs.Refusals.{advance_refusal};
ghost use Rattle.lease.specs.Rules.{notice_of, advance_of};
ghost use Rattle.engine.specs.Due.{NotBefore, due_noticed, due_advanced, nothing_fired};
ghost use Rattle.engine.specs.Fits.{PeerBelow};
ghost use Rattle.engine.specs.Turns.{turn_of, turn_outcome};

use crate::clock::{advance_to, quiet_at, quiet_end, quiet_fires};
use crate::notices::{Turn, run_turn};
use bitmap::none;
use lease::{Advanced, FiredTimers, LeaseNotice, LeaseNum, Line, Manager, Reading, Refusal};
use peer_rows::due::{row_due, rows_due};
use refusals::calls::{check_advance, check_notice};

// The reading after a notice.
fn due_noticed(due: u64, notice: LeaseNotice, m: &Manager) -> u64
    requires { PeerBelow capacity notice }
    ensures { result ≡ due_noticed due notice m.entry.now }
{
    match notice {
        LeaseNotice::NewGrants(_, _) | LeaseNotice::DoRevoke(_) | LeaseNotice::ClearHeld => due,
        LeaseNotice::RecvLeaseMsg(id, _)
        | LeaseNotice::GrantTimeout(id)
        | LeaseNotice::LeaseTimeout(id) => due.min(row_due(&m.peers[id])),
    }
}

/// As `valid::notice_valid`, with the actions before they are lines, in the lent turn, which a
/// refusal leaves; `due` is lowered to the deadlines of the notice's peer.
#[tactic(auto, using(refusals::proofs::Laws::fits, crate::proofs::Laws::notice_below, crate::proofs::Laws::notice_keeps, crate::proofs::Turns::lines_of_turn), unfolding(lease::specs::Rules::notice_of))]
pub fn notice_due(
    m: &mut Manager,
    due: &mut u64,
    num: LeaseNum,
    notice: LeaseNotice,
    turn: &mut Turn,
) -> Result<(), Refusal>
    requires valid { record_valid m.old ≡ true }
    requires not_before { NotBefore due.old m.old }
    ensures answer { turn_outcome num turn.new result ≡ (notice_of m.old num notice).outcome }
    ensures turn_after { OnOk result (turn.new ≡ turn_of m.old num notice) }
    ensures turn_stays { IfErr result (λ k. turn.new ≡ turn.old) }
    ensures left { m.new ≡ (notice_of m.old num notice).manager }
    ensures valid { record_valid m.new ≡ true }
    ensures next { OnOk result (due.new ≡ due_noticed due.old notice m.new) }
    ensures refused { IfErr result (λ k. m.new ≡ m.old) }
    ensures due_stays { IfErr result (λ k. due.new ≡ due.old) }
    ensures not_before { NotBefore due.new m.new }
{
    check_notice(m.population, m.me, notice)?;
    run_turn(m, num, notice, turn);
    *due = due_noticed(*due, notice, m);
    Ok(())
}

/// An advance that is not refused to a reading at which nothing is due (rules 8.1, 8.4): no row is
/// looked at. Answers the line that ends quiet time, if it ends.
#[tactic(auto, unfolding(lease::specs::Calls::advance_to))]
pub fn time_passes(m: &mut Manager, due: u64, to: Reading) -> Option<Line>
    requires valid { record_valid m.old ≡ true }
    requires accepted { advance_refusal m.old.now to ≡ Ok tt }
    requires not_before { NotBefore due m.old }
    requires below { to.0 < due }
    ensures answer { (advance_of m.old to).outcome ≡ Ok (nothing_fired m.old.population result) }
    ensures left { m.new ≡ (advance_of m.old to).manager }
    ensures valid { record_valid m.new ≡ true }
    ensures not_before { NotBefore due m.new }
{
    let line = quiet_end(quiet_fires(to, m.quiet_timer), m.me, m.population);
    m.quiet_timer = quiet_at(to, m.quiet_timer);
    m.now = to;
    line
}

/// As `valid::advance_valid`; where the reading is below `due`, no row is looked at, else `due` is
/// the rows' earliest deadline then.
#[tactic(auto, using(refusals::proofs::Laws::fits, crate::proofs::Laws::advance_keeps), unfolding(lease::specs::Rules::advance_of))]
pub fn advance_due(m: &mut Manager, due: &mut u64, to: Reading) -> Result<Advanced, Refusal>
    requires valid { record_valid m.old ≡ true }
    requires not_before { NotBefore due.old m.old }
    ensures answer { result ≡ (advance_of m.old to).outcome }
    ensures left { m.new ≡ (advance_of m.old to).manager }
    ensures valid { record_valid m.new ≡ true }
    ensures next { OnOk result (due.new ≡ due_advanced due.old to m.new) }
    ensures refused { IfErr result (λ k. m.new ≡ m.old) }
    ensures due_stays { IfErr result (λ k. due.new ≡ due.old) }
    ensures not_before { NotBefore due.new m.new }
{
    check_advance(m.now, to)?;
    if to.0 < *due {
        // At most the capacity, so the cast loses nothing.
        let nobody = none(m.population as u8);
        return Ok(Advanced {
            sent: nobody,
            held: nobody,
            quiet_end: time_passes(m, *due, to),
            fired: FiredTimers::none(),
        });
    }
    let advanced = advance_to(m, to);
    *due = rows_due(&m.peers, m.population);
    Ok(advanced)
}

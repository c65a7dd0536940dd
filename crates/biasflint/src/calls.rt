// Calls from the host that may change the record, on the record where it stands: set-up, a notice, advance, quiet start, refresh and the drift
// setting. f and c are the record and the card of `biasflint_call`, as the rules' definitions name them; the answer is
// begun with no line. Every contract says that the answer and the record are those of a definition of specs/Calls. Ids are cast: Rust has no `From` from u64 to usize.

ghost use Rattle.std.specs.Prelude.{◌≡◌};
ghost use Rattle.biasflint.specs.Calls.{setup_c, notice_c, advance_c, quiet_c, refresh_c, drift_c};
ghost use Rattle.wire.specs.Answers.{no_lines};
ghost use Rattle.flat_engine.specs.FlatRows.{FlatSound};

use flat_engine::calls::{add_notice, advance, assume_unknown_grants, attempt_refresh, set_drift};
use flat_engine::set_up::set_up;
use lease::{LeaseNum, Reading};
use wire::answers::AnswerC;
use wire::calls::{CallC, drift_setting_of, lease_notice_of, peer_set_of};
use wire::flat::ManagerC;

/// Set-up, code 1 (rule 6): the own id in peer, the population in size, T in first, the heartbeat in second, the reading in number. It does not
/// look at the record that is lent.
#[tactic(auto, unfolding(crate::specs::Calls::setup_c, crate::specs::Calls::left))]
pub fn setup_c(f: &mut ManagerC, c: CallC, answer: &mut AnswerC)
    requires { answer.old ≡ no_lines }
    ensures answer { answer.new ≡ (setup_c f.old c).answer }
    ensures left { f.new ≡ (setup_c f.old c).manager }
{
    answer.put_plain(set_up(
        f,
        c.peer as usize,
        c.size as usize,
        c.first,
        c.second,
        Reading(c.number),
    ));
}

/// A notice, codes 3 to 8 (rule 7), under the lease number in number.
#[tactic(auto, unfolding(crate::specs::Calls::notice_c, crate::specs::Calls::left))]
pub fn notice_c(f: &mut ManagerC, c: CallC, answer: &mut AnswerC)
    requires sound { FlatSound f.old }
    requires begun { answer.old ≡ no_lines }
    ensures answer { answer.new ≡ (notice_c f.old c).answer }
    ensures left { f.new ≡ (notice_c f.old c).manager }
{
    answer.put_notice(add_notice(f, LeaseNum(c.number), lease_notice_of(c)));
}

/// Advance, code 2, to the reading in number (rule 8.1).
#[tactic(auto, unfolding(crate::specs::Calls::advance_c, crate::specs::Calls::left))]
pub fn advance_c(f: &mut ManagerC, c: CallC, answer: &mut AnswerC)
    requires sound { FlatSound f.old }
    requires begun { answer.old ≡ no_lines }
    ensures answer { answer.new ≡ (advance_c f.old c).answer }
    ensures left { f.new ≡ (advance_c f.old c).manager }
{
    answer.put_advance(advance(f, Reading(c.number)));
}

/// Quiet start, code 9 (rule 8.4).
#[tactic(auto, unfolding(crate::specs::Calls::quiet_c, crate::specs::Calls::left))]
pub fn quiet_c(f: &mut ManagerC, answer: &mut AnswerC)
    requires sound { FlatSound f.old }
    requires begun { answer.old ≡ no_lines }
    ensures answer { answer.new ≡ (quiet_c f.old).answer }
    ensures left { f.new ≡ (quiet_c f.old).manager }
{
    answer.put_plain(assume_unknown_grants(f));
}

/// Refresh, code 10, of a set of peers or of all (rule 8.5).
#[tactic(auto, unfolding(crate::specs::Calls::refresh_c, crate::specs::Calls::left))]
pub fn refresh_c(f: &mut ManagerC, c: CallC, answer: &mut AnswerC)
    requires sound { FlatSound f.old }
    requires begun { answer.old ≡ no_lines }
    ensures answer { answer.new ≡ (refresh_c f.old c).answer }
    ensures left { f.new ≡ (refresh_c f.old c).manager }
{
    answer.put_set(attempt_refresh(f, peer_set_of(c)));
}

/// The drift setting, code 11 (rule 8.6).
#[tactic(auto, unfolding(crate::specs::Calls::drift_c, crate::specs::Calls::left))]
pub fn drift_c(f: &mut ManagerC, c: CallC, answer: &mut AnswerC)
    requires sound { FlatSound f.old }
    requires begun { answer.old ≡ no_lines }
    ensures answer { answer.new ≡ (drift_c f.old c).answer }
    ensures left { f.new ≡ (drift_c f.old c).manager }
{
    answer.put_plain(set_drift(f, drift_setting_of(c)));
}

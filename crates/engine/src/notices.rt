// Notices on the record where it stands: the Rust's `handle_notice` and its `run`, whose loop is
// here one call (rules 7.1 to 7.14). Only the fields that change are written.

ghost use Rattle.std.specs.Prelude.{◌≡◌, ◌<◌};
ghost use Rattle.lease.specs.Notices.{term_of, on_peer, handle_new_grants, handle_do_revoke, handle_clear_held, handle_notice, raised_to, accepted_of};
ghost use Rattle.refusals.specs.Fits.{LimitsFit, ManagerFits};
ghost use Rattle.engine.specs.Fits.{PeerBelow};
ghost use Rattle.engine.specs.Turns.{turn_of};

use crate::lines::{number_actions, reply_outdated};
use lease::{
    Actions, Bar, Bitmap, LeaseAction, LeaseMsg, LeaseNotice, LeaseNum, Lines, Manager, PeerNotice,
    ReplicaId, Term,
};
use peer_rows::clearing::clear_below;
use peer_rows::each_row::{ClearHeld, DoRevoke, NewGrants};
use peer_rows::handlers::handle_peer_notice;
use peer_rows::pass::pass_over;

// What a notice's deadlines are worked out from.
fn term_of(m: &Manager) -> Term
    ensures { result ≡ term_of m.entry.now }
{
    Term {
        clock: m.clock,
        now: m.now,
        expire_timeout: m.expire_timeout,
    }
}

/// A notice about one peer (rules 7.7 to 7.13): that peer's row alone changes. Its actions are lent.
#[tactic(auto, unfolding(lease::specs::Notices::on_peer))]
pub fn on_peer(m: &mut Manager, id: ReplicaId, notice: PeerNotice, actions: &mut Actions)
    requires fits { LimitsFit m.old }
    requires below { id < m.old.population }
    ensures actions_after { actions.new ≡ (on_peer m.old id notice).actions }
    ensures record_after { m.new ≡ (on_peer m.old id notice).manager }
{
    let term = term_of(m);
    *actions = handle_peer_notice(term, id, notice, &mut m.peers[id]);
}

/// NewGrants (rule 7.4): one Guard is broadcast to the peers that get a fresh guard, even when
/// there are none.
#[tactic(auto, unfolding(lease::specs::Notices::handle_new_grants))]
pub fn handle_new_grants(m: &mut Manager, set: Option<Bitmap>, bar: Option<Bar>) -> Actions
    requires { LimitsFit m.old }
    ensures actions { result ≡ (handle_new_grants m.old set bar).actions }
    ensures record_after { m.new ≡ (handle_new_grants m.old set bar).manager }
{
    let (me, n) = (m.me, m.population);
    let marks = pass_over(&mut m.peers, me, n, &NewGrants { set });
    Actions::One(LeaseAction::BcastLeaseMsgs(marks.first, LeaseMsg::Guard(bar)))
}

/// DoRevoke (rule 7.5): Revoke is broadcast to the peers whose sent promises are marked as
/// revoking, if there are any.
#[tactic(auto, unfolding(lease::specs::Notices::handle_do_revoke))]
pub fn handle_do_revoke(m: &mut Manager, set: Option<Bitmap>) -> Actions
    requires { LimitsFit m.old }
    ensures actions { result ≡ (handle_do_revoke m.old set).actions }
    ensures record_after { m.new ≡ (handle_do_revoke m.old set).manager }
{
    let (me, n) = (m.me, m.population);
    let marks = pass_over(&mut m.peers, me, n, &DoRevoke { set });
    if marks.first.bits == 0 {
        Actions::None
    } else {
        Actions::One(LeaseAction::BcastLeaseMsgs(marks.first, LeaseMsg::Revoke))
    }
}

/// ClearHeld (rule 7.6): LeaseCleared always.
#[tactic(auto, unfolding(lease::specs::Notices::handle_clear_held))]
pub fn handle_clear_held(m: &mut Manager) -> Actions
    requires { LimitsFit m.old }
    ensures actions { result ≡ (handle_clear_held m.old).actions }
    ensures record_after { m.new ≡ (handle_clear_held m.old).manager }
{
    let (me, n) = (m.me, m.population);
    pass_over(&mut m.peers, me, n, &ClearHeld);
    Actions::One(LeaseAction::LeaseCleared)
}

// The Rust's `handle_notice`: a notice under the active number. Its actions are lent: they are many
// bytes, and stay where they are written.
#[tactic(auto, unfolding(lease::specs::Notices::handle_notice))]
fn handle_notice(m: &mut Manager, notice: LeaseNotice, actions: &mut Actions)
    requires fits { LimitsFit m.old }
    requires below { PeerBelow m.old.population notice }
    ensures actions_after { actions.new ≡ (handle_notice m.old notice).actions }
    ensures record_after { m.new ≡ (handle_notice m.old notice).manager }
{
    match notice {
        LeaseNotice::NewGrants(set, bar) => *actions = handle_new_grants(m, set, bar),
        LeaseNotice::DoRevoke(set) => *actions = handle_do_revoke(m, set),
        LeaseNotice::ClearHeld => *actions = handle_clear_held(m),
        LeaseNotice::RecvLeaseMsg(id, msg) => {
            on_peer(m, id, PeerNotice::RecvLeaseMsg(msg), actions);
        }
        LeaseNotice::GrantTimeout(id) => on_peer(m, id, PeerNotice::GrantTimeout, actions),
        LeaseNotice::LeaseTimeout(id) => on_peer(m, id, PeerNotice::LeaseTimeout, actions),
    }
}

// A higher number (rules 7.2, 7.3): all four tables emptied in one pass, and the number active.
#[tactic(auto, using(peer_rows::proofs::ClearingClaims::raised))]
fn raise(m: &mut Manager, num: LeaseNum)
    requires { ManagerFits m.old }
    ensures record_after { m.new ≡ raised_to m.old num }
    ensures fits { ManagerFits m.new }
{
    let n = m.population;
    clear_below(&mut m.peers, n);
    m.active_num = num;
}

/// What one turn of the Rust's `run` gives.
#[derive(Clone, Copy)]
pub struct Turn {
    /// Whether the notice's number is higher than the active one was.
    pub higher: bool,
    /// The notice's actions.
    pub actions: Actions,
}

impl Turn {
    /// No action.
    pub const NONE: Turn = Turn {
        higher: false,
        actions: Actions::None,
    };
}

/// One turn of the Rust's `run`: under a lower number nothing changes (rule 7.1), a higher number
/// is raised to first (rule 7.2), then the notice is handled. What it gives is lent.
#[tactic(auto, unfolding(lease::specs::Notices::accepted_of, lease::specs::Notices::raised_to))]
pub fn run_turn(m: &mut Manager, num: LeaseNum, notice: LeaseNotice, turn: &mut Turn)
    requires fits { ManagerFits m.old }
    requires below { PeerBelow m.old.population notice }
    ensures turn_after { turn.new ≡ turn_of m.old num notice }
    ensures record_after { m.new ≡ (accepted_of m.old num notice).manager }
{
    let active_num = m.active_num;
    if num < active_num {
        turn.higher = false;
        turn.actions = reply_outdated(notice);
        return;
    }
    turn.higher = active_num < num;
    if turn.higher {
        raise(m, num);
    }
    handle_notice(m, notice, &mut turn.actions);
}

/// The same with the lines of its actions (rule 7.14).
#[tactic(auto, using(crate::proofs::Turns::lines_of_turn))]
pub fn run(m: &mut Manager, num: LeaseNum, notice: LeaseNotice) -> Lines
    requires fits { ManagerFits m.old }
    requires below { PeerBelow m.old.population notice }
    ensures lines { result ≡ (accepted_of m.old num notice).lines }
    ensures record_after { m.new ≡ (accepted_of m.old num notice).manager }
{
    let mut turn = Turn::NONE;
    run_turn(m, num, notice, &mut turn);
    number_actions(num, turn.higher, turn.actions)
}

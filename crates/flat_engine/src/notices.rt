// Notices on a flat record where it stands (rules 7.1 to 7.14), as `engine::notices` on a manager's. A notice about one peer reads and writes
// that peer's row alone.

ghost use Rattle.std.specs.Prelude.{◌≡◌, ◌<◌, true};
ghost use Rattle.lease.specs.Notices.{term_of, on_peer, handle_new_grants, handle_do_revoke, handle_clear_held, handle_notice, raised_to, accepted_of};
ghost use Rattle.lease.specs.Rules.{notice_of};
ghost use Rattle.engine.specs.Fits.{PeerBelow};
ghost use Rattle.wire.specs.Flat.{flat_of};
ghost use Rattle.wire.specs.FromFlat.{manager_of};
ghost use Rattle.flat_engine.specs.FlatRows.{FlatFits};

use crate::clearing::flat_clear_below;
use crate::rows::flat_pass_over;
use engine::lines::{number_actions, reply_outdated};
use flat_record::from_flat::{clock_by_flag, peer_of};
use flat_record::to_flat::flat_row;
use lease::{
    Actions, Bar, Bitmap, LeaseAction, LeaseMsg, LeaseNotice, LeaseNum, Lines, PeerNotice, Reading,
    ReplicaId, Term,
};
use peer_rows::each_row::{ClearHeld, DoRevoke, NewGrants};
use peer_rows::handlers::handle_peer_notice;
use wire::flat::ManagerC;

// What a notice's deadlines are worked out from.
#[tactic(auto, unfolding(wire::specs::FromFlat::manager_of))]
fn term_of(f: &ManagerC) -> Term
    ensures { result ≡ term_of (manager_of f.entry.now) }
{
    Term {
        clock: clock_by_flag(f.drifting, f.quotient),
        now: Reading(f.now),
        expire_timeout: f.expire_timeout,
    }
}

// A notice about one peer (rules 7.7 to 7.13).
#[tactic(auto, unfolding(lease::specs::Notices::on_peer, wire::specs::FromFlat::manager_of))]
fn on_peer(f: &mut ManagerC, id: ReplicaId, notice: PeerNotice) -> Actions
    requires fits { FlatFits f.old }
    requires below { id < f.old.population }
    ensures actions { result ≡ (on_peer (manager_of f.old) id notice).actions }
    ensures record_after { f.new ≡ flat_of (on_peer (manager_of f.old) id notice).manager }
{
    let term = term_of(f);
    let mut row = peer_of(f.peers[id]);
    let actions = handle_peer_notice(term, id, notice, &mut row);
    f.peers[id] = flat_row(row);
    actions
}

// NewGrants (rule 7.4).
#[tactic(auto, using(crate::proofs::Laws::rows_put), unfolding(lease::specs::Notices::handle_new_grants, wire::specs::FromFlat::manager_of))]
fn handle_new_grants(f: &mut ManagerC, set: Option<Bitmap>, bar: Option<Bar>) -> Actions
    requires { FlatFits f.old }
    ensures actions { result ≡ (handle_new_grants (manager_of f.old) set bar).actions }
    ensures record_after { f.new ≡ flat_of (handle_new_grants (manager_of f.old) set bar).manager }
{
    let (me, n) = (f.me, f.population);
    let marks = flat_pass_over(&mut f.peers, me, n, &NewGrants { set });
    Actions::One(LeaseAction::BcastLeaseMsgs(marks.first, LeaseMsg::Guard(bar)))
}

// DoRevoke (rule 7.5).
#[tactic(auto, using(crate::proofs::Laws::rows_put), unfolding(lease::specs::Notices::handle_do_revoke, wire::specs::FromFlat::manager_of))]
fn handle_do_revoke(f: &mut ManagerC, set: Option<Bitmap>) -> Actions
    requires { FlatFits f.old }
    ensures actions { result ≡ (handle_do_revoke (manager_of f.old) set).actions }
    ensures record_after { f.new ≡ flat_of (handle_do_revoke (manager_of f.old) set).manager }
{
    let (me, n) = (f.me, f.population);
    let marks = flat_pass_over(&mut f.peers, me, n, &DoRevoke { set });
    if marks.first.bits == 0 {
        Actions::None
    } else {
        Actions::One(LeaseAction::BcastLeaseMsgs(marks.first, LeaseMsg::Revoke))
    }
}

// ClearHeld (rule 7.6).
#[tactic(auto, using(crate::proofs::Laws::rows_put), unfolding(lease::specs::Notices::handle_clear_held, wire::specs::FromFlat::manager_of))]
fn handle_clear_held(f: &mut ManagerC) -> Actions
    requires { FlatFits f.old }
    ensures actions { result ≡ (handle_clear_held (manager_of f.old)).actions }
    ensures record_after { f.new ≡ flat_of (handle_clear_held (manager_of f.old)).manager }
{
    let (me, n) = (f.me, f.population);
    flat_pass_over(&mut f.peers, me, n, &ClearHeld);
    Actions::One(LeaseAction::LeaseCleared)
}

// A notice under the active number.
#[tactic(auto, unfolding(lease::specs::Notices::handle_notice))]
fn handle_notice(f: &mut ManagerC, notice: LeaseNotice) -> Actions
    requires fits { FlatFits f.old }
    requires below { PeerBelow f.old.population notice }
    ensures actions { result ≡ (handle_notice (manager_of f.old) notice).actions }
    ensures record_after { f.new ≡ flat_of (handle_notice (manager_of f.old) notice).manager }
{
    match notice {
        LeaseNotice::NewGrants(set, bar) => handle_new_grants(f, set, bar),
        LeaseNotice::DoRevoke(set) => handle_do_revoke(f, set),
        LeaseNotice::ClearHeld => handle_clear_held(f),
        LeaseNotice::RecvLeaseMsg(id, msg) => on_peer(f, id, PeerNotice::RecvLeaseMsg(msg)),
        LeaseNotice::GrantTimeout(id) => on_peer(f, id, PeerNotice::GrantTimeout),
        LeaseNotice::LeaseTimeout(id) => on_peer(f, id, PeerNotice::LeaseTimeout),
    }
}

// A higher number (rules 7.2, 7.3): all four tables emptied in one pass, and the number active.
#[tactic(auto, unfolding(lease::specs::Notices::raised_to, wire::specs::FromFlat::manager_of))]
fn raise(f: &mut ManagerC, num: LeaseNum)
    requires { FlatFits f.old }
    ensures record_after { f.new ≡ flat_of (raised_to (manager_of f.old) num) }
    ensures manager { manager_of f.new ≡ raised_to (manager_of f.old) num }
    ensures fits { FlatFits f.new }
{
    let n = f.population;
    flat_clear_below(&mut f.peers, n);
    f.active_num = num.0;
}

/// A notice that is not refused, under its number: under a lower one nothing changes (rule 7.1), a higher one is raised to first (rule 7.2).
#[tactic(auto, unfolding(lease::specs::Notices::accepted_of, lease::specs::Notices::raised_to, wire::specs::FromFlat::manager_of))]
pub fn run(f: &mut ManagerC, num: LeaseNum, notice: LeaseNotice) -> Lines
    requires fits { FlatFits f.old }
    requires below { PeerBelow f.old.population notice }
    ensures lines { result ≡ (accepted_of (manager_of f.old) num notice).lines }
    ensures record_after { f.new ≡ flat_of (accepted_of (manager_of f.old) num notice).manager }
{
    let active_num = LeaseNum(f.active_num);
    if num < active_num {
        return number_actions(num, false, reply_outdated(notice));
    }
    let higher = active_num < num;
    if higher {
        raise(f, num);
    }
    number_actions(num, higher, handle_notice(f, notice))
}

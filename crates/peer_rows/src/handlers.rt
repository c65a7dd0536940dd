// Which rule of held and sent a notice about one peer goes to, and the timer that the rule arms
// (rules 7.7 to 7.13).

ghost use Rattle.std.specs.Prelude.{◌≡◌};
ghost use Rattle.lease.specs.Handlers.{handle_peer_notice};
ghost use Rattle.peer_rows.specs.Fits.{TermFits};

use crate::held::{handle_lease_timeout, handle_msg_guard, handle_msg_promise, handle_msg_revoke};
use crate::sent::{
    handle_grant_timeout, handle_msg_guard_reply, handle_msg_promise_reply, handle_msg_revoke_reply,
};
use lease::{Actions, LeaseMsg, Peer, PeerNotice, ReplicaId, Term};
use timer::kickoff;

/// A notice about the peer `id`, on that peer's row. A promise sent runs for 2T, all else for T; 2T
/// is one duration, drifted once (rules 1.3, 7.8).
#[tactic(auto, unfolding(lease::specs::Handlers::handle_msg, lease::specs::Handlers::handle_peer_notice))]
pub fn handle_peer_notice(term: Term, id: ReplicaId, notice: PeerNotice, row: &mut Peer) -> Actions
    requires { TermFits term }
    ensures actions { result ≡ (handle_peer_notice term id notice row.old).actions }
    ensures row_after { row.new ≡ (handle_peer_notice term id notice row.old).peer }
{
    let timeout = term.expire_timeout;
    let kicked_off = |ns| kickoff(term.clock, term.now, ns);
    match notice {
        PeerNotice::RecvLeaseMsg(msg) => match msg {
            LeaseMsg::Guard(bar) => handle_msg_guard(id, kicked_off(timeout), bar, row),
            LeaseMsg::GuardReply => handle_msg_guard_reply(id, kicked_off(2 * timeout), row),
            LeaseMsg::Promise => handle_msg_promise(id, kicked_off(timeout), row),
            LeaseMsg::PromiseReply(held) => handle_msg_promise_reply(
                id,
                kicked_off(timeout),
                held,
                row,
            ),
            LeaseMsg::Revoke => handle_msg_revoke(id, row),
            LeaseMsg::RevokeReply(held) => handle_msg_revoke_reply(id, held, row),
        },
        PeerNotice::GrantTimeout => handle_grant_timeout(id, row),
        PeerNotice::LeaseTimeout => handle_lease_timeout(id, row),
    }
}

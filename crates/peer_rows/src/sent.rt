// The rules of the sent side on its peer's row: GuardReply, PromiseReply, RevokeReply,
// GrantTimeout. `t` is a timer that has just been kicked off. Only the entries that change are
// written.

ghost use Rattle.std.specs.Prelude.{◌≡◌};
ghost use Rattle.lease.specs.Handlers.{handle_msg_guard_reply, handle_msg_promise_reply, handle_msg_revoke_reply, handle_grant_timeout};

use crate::entries::{drop_sent, is_unexploded, promise_timer};
use lease::{Actions, LeaseAction, LeaseMsg, Peer, ReplicaId, Timer};
use timer::read::exploded;

/// GuardReply (rule 7.8): nothing without a sent guard; otherwise it becomes a sent promise, and
/// Promise is sent.
pub fn handle_msg_guard_reply(id: ReplicaId, t: Timer, row: &mut Peer) -> Actions
    ensures actions { result ≡ (handle_msg_guard_reply id t row.old).actions }
    ensures row_after { row.new ≡ (handle_msg_guard_reply id t row.old).peer }
{
    if row.guard_sent.is_none() {
        return Actions::None;
    }
    row.guard_sent = None;
    row.promise_sent = Some((t, false));
    Actions::One(LeaseAction::SendLeaseMsg(id, LeaseMsg::Promise))
}

/// PromiseReply (rule 7.10): nothing without a sent promise. Held false removes it; held true kicks
/// it off and marks its peer for the next refresh, unless it is exploded or revoking.
pub fn handle_msg_promise_reply(id: ReplicaId, t: Timer, held: bool, row: &mut Peer) -> Actions
    ensures actions { result ≡ (handle_msg_promise_reply id t held row.old).actions }
    ensures row_after { row.new ≡ (handle_msg_promise_reply id t held row.old).peer }
{
    match row.promise_sent {
        None => Actions::None,
        Some(_) if !held => {
            row.promise_sent = None;
            Actions::One(LeaseAction::GrantRemoved(id, false))
        }
        Some((timer, revoking)) if revoking || exploded(timer) => Actions::None,
        Some(_) => {
            row.promise_sent = Some((t, false));
            row.refresh_mark = true;
            Actions::One(LeaseAction::NextRefresh(id))
        }
    }
}

/// RevokeReply (rule 7.12): guard and promise sent are dropped and GrantRemoved carries the
/// message's `held`, whatever was there.
pub fn handle_msg_revoke_reply(id: ReplicaId, held: bool, row: &mut Peer) -> Actions
    ensures actions { result ≡ (handle_msg_revoke_reply id held row.old).actions }
    ensures row_after { row.new ≡ (handle_msg_revoke_reply id held row.old).peer }
{
    drop_sent(row);
    Actions::One(LeaseAction::GrantRemoved(id, held))
}

/// GrantTimeout (rule 7.13): nothing while a sent timer of the peer is not exploded, an unarmed
/// guard included; otherwise what is sent is dropped, and the timeout is reported, even if nothing
/// was there.
pub fn handle_grant_timeout(id: ReplicaId, row: &mut Peer) -> Actions
    ensures actions { result ≡ (handle_grant_timeout id row.old).actions }
    ensures row_after { row.new ≡ (handle_grant_timeout id row.old).peer }
{
    if is_unexploded(row.guard_sent) || is_unexploded(promise_timer(row.promise_sent)) {
        return Actions::None;
    }
    drop_sent(row);
    Actions::One(LeaseAction::GrantTimeout(id))
}

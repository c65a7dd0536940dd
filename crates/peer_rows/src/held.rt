// The rules of the held side on its peer's row: Guard, Promise, Revoke, LeaseTimeout. `t` is a
// timer that has just been kicked off. Only the entries that change are written.

ghost use Rattle.std.specs.Prelude.{◌≡◌};
ghost use Rattle.lease.specs.Handlers.{handle_msg_guard, handle_msg_promise, handle_msg_revoke, handle_lease_timeout};

use crate::entries::{drop_held, is_unexploded};
use lease::{Actions, Bar, LeaseAction, LeaseMsg, Peer, ReplicaId, Timer};

/// Guard (rule 7.7): nothing if a promise from that peer is held; otherwise a new held guard
/// replaces any old one, the accept bar is passed on if one came, and GuardReply is sent.
pub fn handle_msg_guard(id: ReplicaId, t: Timer, bar: Option<Bar>, row: &mut Peer) -> Actions
    ensures actions { result ≡ (handle_msg_guard id t bar row.old).actions }
    ensures row_after { row.new ≡ (handle_msg_guard id t bar row.old).peer }
{
    if row.promise_held.is_some() {
        return Actions::None;
    }
    row.guard_held = Some(t);
    let reply = LeaseAction::SendLeaseMsg(id, LeaseMsg::GuardReply);
    match bar {
        None => Actions::One(reply),
        Some(b) => Actions::Two(LeaseAction::GuardAcceptBar(id, b), reply),
    }
}

/// Promise (rule 7.9): a held guard, even an exploded one, becomes a held promise; a held promise
/// is kicked off; with neither the reply says false.
pub fn handle_msg_promise(id: ReplicaId, t: Timer, row: &mut Peer) -> Actions
    ensures actions { result ≡ (handle_msg_promise id t row.old).actions }
    ensures row_after { row.new ≡ (handle_msg_promise id t row.old).peer }
{
    let held = row.guard_held.is_some() || row.promise_held.is_some();
    if held {
        row.guard_held = None;
        row.promise_held = Some(t);
    }
    Actions::One(LeaseAction::SendLeaseMsg(id, LeaseMsg::PromiseReply(held)))
}

/// Revoke (rule 7.11): guard and promise held are dropped; the reply says whether a promise was
/// held.
pub fn handle_msg_revoke(id: ReplicaId, row: &mut Peer) -> Actions
    ensures actions { result ≡ (handle_msg_revoke id row.old).actions }
    ensures row_after { row.new ≡ (handle_msg_revoke id row.old).peer }
{
    let held = row.promise_held.is_some();
    drop_held(row);
    Actions::One(LeaseAction::SendLeaseMsg(id, LeaseMsg::RevokeReply(held)))
}

/// LeaseTimeout (rule 7.13): nothing while a held timer of the peer is not exploded; otherwise what
/// is held is dropped, and the timeout is reported, even if nothing was held.
pub fn handle_lease_timeout(id: ReplicaId, row: &mut Peer) -> Actions
    ensures actions { result ≡ (handle_lease_timeout id row.old).actions }
    ensures row_after { row.new ≡ (handle_lease_timeout id row.old).peer }
{
    if is_unexploded(row.guard_held) || is_unexploded(row.promise_held) {
        return Actions::None;
    }
    drop_held(row);
    Actions::One(LeaseAction::LeaseTimeout(id))
}

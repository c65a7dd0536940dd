// The lines of a notice (rule 7.14), and what an outdated one answers (rule 7.1).

ghost use Rattle.std.specs.Prelude.{◌≡◌};
ghost use Rattle.lease.specs.Notices.{outdated_msg, outdated, numbered};

use lease::{Actions, LeaseAction, LeaseMsg, LeaseNotice, LeaseNum, Line, Lines, ReplicaId};

// An outdated message: a Revoke alone is answered, with held false.
fn reply_outdated_msg(id: ReplicaId, msg: LeaseMsg) -> Actions
    ensures { result ≡ outdated_msg id msg }
{
    match msg {
        LeaseMsg::Revoke => Actions::One(LeaseAction::SendLeaseMsg(
            id,
            LeaseMsg::RevokeReply(false),
        )),
        _ => Actions::None,
    }
}

/// The actions of a notice under a number below the active one (rule 7.1): a Revoke is answered,
/// all else gives nothing.
pub fn reply_outdated(notice: LeaseNotice) -> Actions
    ensures { result ≡ outdated notice }
{
    match notice {
        LeaseNotice::RecvLeaseMsg(id, msg) => reply_outdated_msg(id, msg),
        _ => Actions::None,
    }
}

/// The actions in order, each under the notice's number; HigherNumber first where the number was
/// raised (rules 7.2, 7.14).
pub fn number_actions(num: LeaseNum, higher: bool, actions: Actions) -> Lines
    ensures { result ≡ numbered num higher actions }
{
    let first = Line(num, LeaseAction::HigherNumber);
    match (higher, actions) {
        (false, Actions::None) => Lines::None,
        (false, Actions::One(a)) => Lines::One(Line(num, a)),
        (false, Actions::Two(a, b)) => Lines::Two(Line(num, a), Line(num, b)),
        (true, Actions::None) => Lines::One(first),
        (true, Actions::One(a)) => Lines::Two(first, Line(num, a)),
        (true, Actions::Two(a, b)) => Lines::Three(first, Line(num, a), Line(num, b)),
    }
}

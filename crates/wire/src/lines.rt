// The lines of answers as they cross to C: plain numbers (rule 13.3). Every contract says that the result equals a definition of
// specs/Lines.

ghost use Rattle.std.specs.Prelude.{◌≡◌};
ghost use Rattle.wire.specs.Lines.{line_c, no_line, send_line, guard_line, bcast_line, action_line, line_of, fired_line, set_line, count_line, time_left_line};

use lease::{Bar, Bitmap, LeaseAction, LeaseMsg, Line, ReplicaId};

/// One line. Codes 1 to 13 are actions under their lease number, 31 to 34 what advance and the questions answer. What first and second are,
/// and whether peer is an id, a size or a flag, goes by the code; a field that a line does not use is 0.
#[repr(C)]
#[derive(Clone, Copy)]
pub struct LineC {
    pub code: u64,
    pub number: u64,
    pub peer: u64,
    pub first: u64,
    pub second: u64,
}

/// A line of these numbers, with 0 in second.
pub fn line_c(code: u64, number: u64, peer: u64, first: u64) -> LineC
    ensures { result ≡ line_c code number peer first 0 }
{
    LineC {
        code,
        number,
        peer,
        first,
        second: 0,
    }
}

// A message to one peer; the rules send no Guard and no Revoke to one peer: code 0. Ids are cast: Rust has no `From` from usize to u64.
fn send_line(number: u64, id: ReplicaId, msg: LeaseMsg) -> LineC
    ensures { result ≡ send_line number id msg }
{
    match msg {
        LeaseMsg::GuardReply => line_c(3, number, id as u64, 0),
        LeaseMsg::Promise => line_c(4, number, id as u64, 0),
        LeaseMsg::PromiseReply(held) => line_c(5, number, id as u64, u64::from(held)),
        LeaseMsg::RevokeReply(held) => line_c(6, number, id as u64, u64::from(held)),
        LeaseMsg::Guard(_) | LeaseMsg::Revoke => line_c(0, number, id as u64, 0),
    }
}

// A Guard broadcast: peer is 1 where second is an accept bar.
fn guard_line(number: u64, set: u64, bar: Option<Bar>) -> LineC
    ensures { result ≡ guard_line number set bar }
{
    bar.map_or(
        line_c(1, number, 0, set),
        |x| LineC {
            code: 1,
            number,
            peer: 1,
            first: set,
            second: x.0,
        },
    )
}

// A message to the peers of a set; the rules broadcast Guard and Revoke alone: any other has code 0.
fn bcast_line(number: u64, set: u64, msg: LeaseMsg) -> LineC
    ensures { result ≡ bcast_line number set msg }
{
    match msg {
        LeaseMsg::Guard(bar) => guard_line(number, set, bar),
        LeaseMsg::Revoke => line_c(2, number, 0, set),
        LeaseMsg::GuardReply
        | LeaseMsg::Promise
        | LeaseMsg::PromiseReply(_)
        | LeaseMsg::RevokeReply(_) => line_c(0, number, 0, 0),
    }
}

// A numbered action. Ids are cast, as above.
fn action_line(number: u64, action: LeaseAction) -> LineC
    ensures { result ≡ action_line number action }
{
    match action {
        LeaseAction::SendLeaseMsg(id, msg) => send_line(number, id, msg),
        LeaseAction::BcastLeaseMsgs(set, msg) => bcast_line(number, set.bits, msg),
        LeaseAction::NextRefresh(id) => line_c(7, number, id as u64, 0),
        LeaseAction::GrantRemoved(id, held) => line_c(8, number, id as u64, u64::from(held)),
        LeaseAction::LeaseCleared => line_c(9, number, 0, 0),
        LeaseAction::GrantTimeout(id) => line_c(10, number, id as u64, 0),
        LeaseAction::LeaseTimeout(id) => line_c(11, number, id as u64, 0),
        LeaseAction::HigherNumber => line_c(12, number, 0, 0),
        LeaseAction::GuardAcceptBar(id, bar) => line_c(13, number, id as u64, bar.0),
    }
}

/// A line of a notice's answer, codes 1 to 13.
#[tactic(auto, unfolding(crate::specs::Lines::line_of))]
pub fn line_of(line: Line) -> LineC
    ensures { result ≡ line_of line }
{
    let Line(num, action) = line;
    action_line(num.0, action)
}

/// Line 31: the peers whose sent timers fired, and those whose held timers fired (rule 8.2).
pub fn fired_line(sent: Bitmap, held: Bitmap) -> LineC
    ensures { result ≡ fired_line sent held }
{
    LineC {
        second: held.bits,
        ..line_c(31, 0, 0, sent.bits)
    }
}

/// Line 32: a set, its size in peer, its ids as bits in first.
pub fn set_line(set: Bitmap) -> LineC
    ensures { result ≡ set_line set }
{
    line_c(32, 0, u64::from(set.size), set.bits)
}

/// Line 33: a count in first.
pub fn count_line(n: u64) -> LineC
    ensures { result ≡ count_line n }
{
    line_c(33, 0, 0, n)
}

/// Line 34: ms left in first; peer is 1 where a promise is held (rule 9.4).
pub fn time_left_line(left: Option<u64>) -> LineC
    ensures { result ≡ time_left_line left }
{
    left.map_or(line_c(34, 0, 0, 0), |ms| line_c(34, 0, 1, ms))
}

/// No line: all zeros.
pub fn no_line() -> LineC
    ensures { result ≡ no_line }
{
    line_c(0, 0, 0, 0)
}

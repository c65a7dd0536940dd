// A call as the record that crosses from C, a card of six plain numbers, and what it says in the types of the lease manager (rule 13.2).
// Every contract says that the result equals a definition of specs/Cards.

ghost use Rattle.std.specs.Prelude.{◌≡◌, min, eqb};
ghost use Rattle.lease.specs.Limits.{within};
ghost use Rattle.wire.specs.Form.{is_flag};
ghost use Rattle.wire.specs.Events.{card};
ghost use Rattle.wire.specs.Cards.{is_msg, is_percent, is_drift, is_call, peer_set_of, accept_bar_of, msg_of, lease_notice_of, percent_of, drift_setting_of};

use lease::{Bar, Bitmap, LeaseMsg, LeaseNotice};

/// A card: a call by its code, 1 to 15 (rule 13.2). What the other fields are goes by the code. As a call from the host, fields that the
/// code does not name are not looked at; as an event card they are 0 (rule 14.1).
#[repr(C)]
#[derive(Clone, Copy)]
pub struct CallC {
    pub code: u64,
    pub number: u64,
    pub peer: u64,
    pub size: u64,
    pub first: u64,
    pub second: u64,
}

/// A card of these numbers.
pub fn card(code: u64, number: u64, peer: u64, size: u64, first: u64, second: u64) -> CallC
    ensures { result ≡ card code number peer size first second }
{
    CallC {
        code,
        number,
        peer,
        size,
        first,
        second,
    }
}

// ---- which cards are calls

// Whether x is from 1 to high.
fn is_up_to(x: u64, high: u64) -> bool
    ensures { result ≡ within 1 x high }
{
    (1..=high).contains(&x)
}

/// Whether a number is a flag, of a card or of the record: 0 or 1.
pub fn is_flag(n: u64) -> bool
    ensures { result ≡ is_flag n }
{
    n < 2
}

// A message's kind is 1 to 7; the replies that have held, 5 and 7, have it in first.
fn is_msg(c: CallC) -> bool
    ensures { result ≡ is_msg c }
{
    match c.size {
        5 | 7 => is_flag(c.first),
        kind => is_up_to(kind, 6),
    }
}

// A drift setting's percent, 128 above what it stands for.
#[tactic(auto, unfolding(crate::specs::Cards::is_percent))]
fn is_percent(n: u64) -> bool
    ensures { result ≡ is_percent n }
{
    n <= 255
}

// A drift setting's size is a flag; where it is 1, first is the percent.
fn is_drift(c: CallC) -> bool
    ensures { result ≡ is_drift c }
{
    match c.size {
        0 => true,
        1 => is_percent(c.first),
        _ => false,
    }
}

/// Whether the card is a call: its code is 1 to 15, and what the code names is in its range. Else it is refused with 22 (rule 10.22).
#[tactic(auto, unfolding(crate::specs::Cards::is_call))]
pub fn is_call(c: CallC) -> bool
    ensures { result ≡ is_call c }
{
    match c.code {
        3 => is_flag(c.peer),
        6 => is_msg(c),
        11 => is_drift(c),
        code => is_up_to(code, 15),
    }
}

// ---- what they say

// A bitmap's size is a u8: one above 255 counts as 255.
fn size_of(size: u64) -> u8
    ensures { result ≡ min size 255 }
{
    u8::try_from(size).unwrap_or(u8::MAX)
}

/// The set of a card with code 3, 4 or 10: its size in size, its ids as bits in first. Size 0 is no set; a size above 255 counts as 255,
/// which the rules refuse as any size above the capacity.
#[tactic(auto, unfolding(crate::specs::Cards::peer_set_of))]
pub fn peer_set_of(c: CallC) -> Option<Bitmap>
    ensures { result ≡ peer_set_of c }
{
    (c.size != 0).then(|| Bitmap {
        size: size_of(c.size),
        bits: c.first,
    })
}

/// The accept bar of a NewGrants card: second, where peer is 1.
#[tactic(auto, unfolding(crate::specs::Cards::accept_bar_of))]
pub fn accept_bar_of(c: CallC) -> Option<Bar>
    ensures { result ≡ accept_bar_of c }
{
    (c.peer == 1).then_some(Bar(c.second))
}

/// The message of a card with code 6, by its kind in size.
#[tactic(auto, unfolding(crate::specs::Cards::msg_of))]
pub fn msg_of(c: CallC) -> LeaseMsg
    ensures { result ≡ msg_of c }
{
    match c.size {
        1 => LeaseMsg::Guard(None),
        2 => LeaseMsg::Guard(Some(Bar(c.first))),
        3 => LeaseMsg::GuardReply,
        4 => LeaseMsg::Promise,
        5 => LeaseMsg::PromiseReply(c.first == 1),
        6 => LeaseMsg::Revoke,
        _ => LeaseMsg::RevokeReply(c.first == 1),
    }
}

/// The notice of a card with code 3 to 8. Any other code is read as 8: a caller looks at the code first. Ids are cast: Rust has no `From`
/// between usize and u64.
#[tactic(auto, unfolding(crate::specs::Cards::lease_notice_of))]
pub fn lease_notice_of(c: CallC) -> LeaseNotice
    ensures { result ≡ lease_notice_of c }
{
    match c.code {
        3 => LeaseNotice::NewGrants(peer_set_of(c), accept_bar_of(c)),
        4 => LeaseNotice::DoRevoke(peer_set_of(c)),
        5 => LeaseNotice::ClearHeld,
        6 => LeaseNotice::RecvLeaseMsg(c.peer as usize, msg_of(c)),
        7 => LeaseNotice::GrantTimeout(c.peer as usize),
        _ => LeaseNotice::LeaseTimeout(c.peer as usize),
    }
}

// Percent from 0 to 255 as -128 to 127. Of a number above 255, the remainder by 256 counts.
fn percent_of(n: u64) -> i8
    ensures { result ≡ percent_of n }
{
    // By `as`: the numbers fit, and Rust has no such `From`.
    let d = (n % 256) as i16 - 128;
    d as i8
}

/// The drift setting of a card with code 11: percent less 128, or a true clock where size is 0 (rule 3.3).
#[tactic(auto, unfolding(crate::specs::Cards::drift_setting_of))]
pub fn drift_setting_of(c: CallC) -> Option<i8>
    ensures { result ≡ drift_setting_of c }
{
    (c.size != 0).then(|| percent_of(c.first))
}

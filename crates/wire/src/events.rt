// Which six numbers are an event card, what it says in the types of the lease manager, and the card of an event (rules 14.1, 14.2).
// Definitions in specs/Events. The six numbers are those of a call from the host, `CallC`; an event card is stricter: fields that its code
// does not name are 0, and there are no questions.

ghost use Rattle.std.specs.Prelude.{◌≡◌, ◌≢◌, cond, None, Option, Some};
ghost use Rattle.lease.specs.declared.LeaseNotice.TheVariants as N;
ghost use Rattle.wire.specs.Events.{are_zeros, is_set_card, is_msg_card, is_new_grants_card, is_card, event_of, set_size, set_bits, bar_flag, bar_of, msg_kind, msg_first, notice_card, card_of, carried_set, carried_notice, carried_event, is_carried};
ghost use Rattle.wire.specs.Cards.{peer_set_of, accept_bar_of, msg_of, lease_notice_of};
ghost use Rattle.wire.specs.Refusals.{card_refusal_number, CardRefusalOf};

use crate::calls::{CallC, card, is_flag, peer_set_of};
use lease::{
    Bar, Bitmap, CAPACITY, FiredTimers, LeaseMsg, LeaseNotice, LeaseNum, Line, Lines, Reading,
    Refusal, ReplicaId,
};

/// What set-up is handed: `new_and_setup`'s arguments (rule 6.1). T, the heartbeat and the reading are in ns.
#[derive(Clone, Copy)]
pub struct SetUpCall {
    pub me: ReplicaId,
    pub population: usize,
    pub expire_timeout: u64,
    pub heartbeat: u64,
    pub now: Reading,
}

/// What an event card says.
#[derive(Clone, Copy)]
pub enum Event {
    SetUp(SetUpCall),
    Advance(Reading),
    Notice(LeaseNum, LeaseNotice),
}

/// Why an event card is refused (rule 14.3). No text: a refusal is printed as its number.
#[derive(Clone, Copy, PartialEq, Eq)]
pub enum CardRefusal {
    /// The line is not six columns of numbers (rule 10.21).
    NotOfForm,
    /// The six numbers are no card (rule 10.22).
    NoCard,
    /// A card before set-up, or a second set-up (rule 10.23).
    OutOfTurn,
    /// Refused by the manager.
    Call(Refusal),
}

impl CardRefusal {
    /// The number that the refusal's output line has: 21 to 23, or the manager's.
    pub fn number(self) -> u8
        ensures { result ≡ card_refusal_number self }
    {
        match self {
            CardRefusal::NotOfForm => 21,
            CardRefusal::NoCard => 22,
            CardRefusal::OutOfTurn => 23,
            CardRefusal::Call(refusal) => refusal.number(),
        }
    }
}

impl From<Refusal> for CardRefusal {
    ghost from_gives = { CardRefusalOf };

    fn from(own: Refusal) -> CardRefusal {
        CardRefusal::Call(own)
    }
}

/// What an accepted event card gives (rule 14.4).
#[derive(Clone, Copy)]
pub enum CardGiven {
    /// Set-up, which gives no line of its own.
    Done,
    /// A notice's lines.
    Acted(Lines),
    /// The active number, under which timers fire, those that fired, and the quiet-end line.
    Fired(LeaseNum, FiredTimers, Option<Line>),
}

// ---- which numbers are a card, and what they say: none where they are no card, refusal 22

// Unused fields are 0.
#[inline(always)]
fn are_zeros(a: u64, b: u64) -> bool
    ensures { result ≡ are_zeros a b }
{
    a == 0 && b == 0
}

// Size 0 is no set; else it is at most 64, and no one stands at or above it.
#[inline(always)]
#[tactic(auto, unfolding(crate::specs::Events::is_set_card))]
fn is_set_card(size: u64, first: u64) -> bool
    ensures { result ≡ is_set_card size first }
{
    let capacity = u64::from(CAPACITY);
    size == capacity || size < capacity && first >> size == 0
}

// Code 3: a set, and second is a bar where peer is 1.
#[inline(always)]
#[tactic(auto, unfolding(crate::specs::Events::is_new_grants_card, crate::specs::Cards::accept_bar_of))]
fn new_grants_in(c: CallC) -> Option<LeaseNotice>
    ensures { result ≡ cond (is_new_grants_card c) (Some (N.NewGrants (peer_set_of c) (accept_bar_of c))) None }
{
    if !is_set_card(c.size, c.first) {
        return None;
    }
    match c.peer {
        0 if c.second == 0 => Some(LeaseNotice::NewGrants(peer_set_of(c), None)),
        1 => Some(LeaseNotice::NewGrants(peer_set_of(c), Some(Bar(c.second)))),
        _ => None,
    }
}

// A message: its kind in size, and its first.
#[inline(always)]
#[tactic(auto, unfolding(crate::specs::Events::is_msg_card, crate::specs::Cards::msg_of))]
fn msg_in(c: CallC) -> Option<LeaseMsg>
    ensures { result ≡ cond (is_msg_card c.size c.first) (Some (msg_of c)) None }
{
    match c.size {
        1 if c.first == 0 => Some(LeaseMsg::Guard(None)),
        2 => Some(LeaseMsg::Guard(Some(Bar(c.first)))),
        3 if c.first == 0 => Some(LeaseMsg::GuardReply),
        4 if c.first == 0 => Some(LeaseMsg::Promise),
        5 if is_flag(c.first) => Some(LeaseMsg::PromiseReply(c.first == 1)),
        6 if c.first == 0 => Some(LeaseMsg::Revoke),
        7 if is_flag(c.first) => Some(LeaseMsg::RevokeReply(c.first == 1)),
        _ => None,
    }
}

// The notice of a card with a code above 2.
#[inline(always)]
#[tactic(auto, unfolding(crate::specs::Events::is_card, crate::specs::Events::is_do_revoke_card, crate::specs::Events::is_notice_card, crate::specs::Cards::lease_notice_of))]
fn notice_in(c: CallC) -> Option<LeaseNotice>
    requires { (c.code ≢ 1) × (c.code ≢ 2) }
    ensures { result ≡ cond (is_card c) (Some (lease_notice_of c)) None }
{
    match c.code {
        3 => new_grants_in(c),
        4 if is_set_card(c.size, c.first) && are_zeros(c.peer, c.second) => {
            Some(LeaseNotice::DoRevoke(peer_set_of(c)))
        }
        5 if are_zeros(c.peer, c.size) && are_zeros(c.first, c.second) => {
            Some(LeaseNotice::ClearHeld)
        }
        6 if c.second == 0 => Some(LeaseNotice::RecvLeaseMsg(c.peer as usize, msg_in(c)?)),
        7 if c.size == 0 && are_zeros(c.first, c.second) => {
            Some(LeaseNotice::GrantTimeout(c.peer as usize))
        }
        8 if c.size == 0 && are_zeros(c.first, c.second) => {
            Some(LeaseNotice::LeaseTimeout(c.peer as usize))
        }
        _ => None,
    }
}

/// The event of six numbers, where they are an event card; else they are refused with 22. Ids are cast: Rust has no `From` from u64 to
/// usize.
#[inline(always)]
#[tactic(auto, unfolding(crate::specs::Events::is_card, crate::specs::Events::event_of))]
pub fn event_if_card(c: CallC) -> Option<Event>
    ensures { result ≡ cond (is_card c) (Some (event_of c)) None }
{
    match c.code {
        1 => Some(Event::SetUp(SetUpCall {
            me: c.peer as usize,
            population: c.size as usize,
            expire_timeout: c.first,
            heartbeat: c.second,
            now: Reading(c.number),
        })),
        2 if are_zeros(c.peer, c.size) && are_zeros(c.first, c.second) => {
            Some(Event::Advance(Reading(c.number)))
        }
        2 => None,
        _ => Some(Event::Notice(LeaseNum(c.number), notice_in(c)?)),
    }
}

// ---- the card of an event: a flag or a kind stands beside its value. Ids are cast, as above

fn set_size(set: Option<Bitmap>) -> u64
    ensures { result ≡ set_size set }
{
    set.map_or(0, |b| u64::from(b.size))
}

fn set_bits(set: Option<Bitmap>) -> u64
    ensures { result ≡ set_bits set }
{
    set.map_or(0, |b| b.bits)
}

fn bar_flag(bar: Option<Bar>) -> u64
    ensures { result ≡ bar_flag bar }
{
    u64::from(bar.is_some())
}

fn bar_of(bar: Option<Bar>) -> u64
    ensures { result ≡ bar_of bar }
{
    bar.map_or(0, |x| x.0)
}

fn msg_kind(msg: LeaseMsg) -> u64
    ensures { result ≡ msg_kind msg }
{
    match msg {
        LeaseMsg::Guard(bar) => 1 + bar_flag(bar),
        LeaseMsg::GuardReply => 3,
        LeaseMsg::Promise => 4,
        LeaseMsg::PromiseReply(_) => 5,
        LeaseMsg::Revoke => 6,
        LeaseMsg::RevokeReply(_) => 7,
    }
}

fn msg_first(msg: LeaseMsg) -> u64
    ensures { result ≡ msg_first msg }
{
    match msg {
        LeaseMsg::Guard(bar) => bar_of(bar),
        LeaseMsg::PromiseReply(held) | LeaseMsg::RevokeReply(held) => u64::from(held),
        LeaseMsg::GuardReply | LeaseMsg::Promise | LeaseMsg::Revoke => 0,
    }
}

#[tactic(auto, unfolding(crate::specs::Events::notice_card))]
fn notice_card(number: u64, notice: LeaseNotice) -> CallC
    ensures { result ≡ notice_card number notice }
{
    match notice {
        LeaseNotice::NewGrants(set, bar) => card(
            3,
            number,
            bar_flag(bar),
            set_size(set),
            set_bits(set),
            bar_of(bar),
        ),
        LeaseNotice::DoRevoke(set) => card(4, number, 0, set_size(set), set_bits(set), 0),
        LeaseNotice::ClearHeld => card(5, number, 0, 0, 0, 0),
        LeaseNotice::RecvLeaseMsg(id, msg) => card(
            6,
            number,
            id as u64,
            msg_kind(msg),
            msg_first(msg),
            0,
        ),
        LeaseNotice::GrantTimeout(id) => card(7, number, id as u64, 0, 0, 0),
        LeaseNotice::LeaseTimeout(id) => card(8, number, id as u64, 0, 0, 0),
    }
}

/// The card of an event.
#[tactic(auto, unfolding(crate::specs::Events::card_of))]
pub fn card_of(e: Event) -> CallC
    ensures { result ≡ card_of e }
{
    match e {
        Event::SetUp(u) => card(
            1,
            u.now.0,
            u.me as u64,
            u.population as u64,
            u.expire_timeout,
            u.heartbeat,
        ),
        Event::Advance(to) => card(2, to.0, 0, 0, 0, 0),
        Event::Notice(num, notice) => notice_card(num.0, notice),
    }
}

// ---- which events a card can carry

// No set, or one of size 1 to 64 with no one at or above it.
#[tactic(auto, unfolding(crate::specs::Events::carried_set))]
fn carried_set(set: Option<Bitmap>) -> bool
    ensures { result ≡ carried_set set }
{
    set.is_none_or(|b| b.size != 0 && is_set_card(u64::from(b.size), b.bits))
}

#[tactic(auto, unfolding(crate::specs::Events::carried_notice))]
fn carried_notice(notice: LeaseNotice) -> bool
    ensures { result ≡ carried_notice notice }
{
    match notice {
        LeaseNotice::NewGrants(set, _) | LeaseNotice::DoRevoke(set) => carried_set(set),
        LeaseNotice::ClearHeld
        | LeaseNotice::RecvLeaseMsg(_, _)
        | LeaseNotice::GrantTimeout(_)
        | LeaseNotice::LeaseTimeout(_) => true,
    }
}

#[tactic(auto, unfolding(crate::specs::Events::carried_event))]
fn carried_event(e: Event) -> bool
    ensures { result ≡ carried_event e }
{
    match e {
        Event::SetUp(_) | Event::Advance(_) => true,
        Event::Notice(_, notice) => carried_notice(notice),
    }
}

/// Whether a card's columns have room for the event: its sets are proper, and its ids have at most four digits.
#[tactic(auto, unfolding(crate::specs::Events::is_carried))]
pub fn is_carried(e: Event) -> bool
    ensures { result ≡ is_carried e }
{
    let c = card_of(e);
    carried_event(e) && c.peer <= 9999 && c.size <= 9999
}

// What a card does (rules 14.3, 14.5): the state that is carried from card to card, the refusals of the line and of the card's turn in front
// of the call's own, and the calls of the lease manager on the record where it stands. Definitions in specs/Sessions.

ghost use Rattle.std.specs.Prelude.{ℕ, List, ◌≡◌, None, IfSome};
ghost use Rattle.wire.specs.declared.events.Event.TheVariants as E;
ghost use Rattle.card_text.specs.Cards.{event_read, refused_with};
ghost use Rattle.card_stream.specs.Sessions.{blank_session, sound, Knows, count_next, done, fired, nothing_given, acted, event_given, card_given, card_number};

use engine::due::{advance_due, notice_due, time_passes};
use engine::lines::number_actions;
use engine::notices::Turn;
use engine::set_up::{check_set_up, fresh_manager};
use lease::{Advanced, LeaseNotice, LeaseNum, Line, Manager, Reading, Refusal};
use refusals::calls::check_advance;
use refusals::records::is_valid_record;
use wire::events::{CardGiven, CardRefusal, Event, SetUpCall};

/// What is carried from card to card.
#[derive(Clone, Drop)]
pub struct Session {
    /// How many cards were read, refused ones included.
    pub cards: u64,
    /// The manager's record, where a set-up was accepted.
    pub manager: Option<Manager>,
}

/// What a card gives, and the session after it.
#[derive(Clone, Drop)]
pub struct CardAnswer {
    pub outcome: Result<CardGiven, CardRefusal>,
    pub session: Session,
}

/// What is known of a session from card to card: a run of cards looks at its record once.
#[derive(Drop)]
pub struct Known {
    /// Whether refusal 15 lets the record through, if there is one: cards keep it so.
    pub is_sound: bool,
    /// In ns: at readings below it none of the record's timers is due.
    pub due: u64,
}

/// Before the first card.
#[tactic(auto, unfolding(crate::specs::Sessions::blank_session))]
pub fn blank_session() -> Session
    ensures { result ≡ blank_session }
{
    Session {
        cards: 0,
        manager: None,
    }
}

/// Whether refusal 15 lets the session's record through, if there is one. Cards keep it so: a run of cards looks once.
#[tactic(auto, unfolding(crate::specs::Sessions::sound))]
pub fn is_sound(s: &Session) -> bool
    ensures { result ≡ sound s.now }
{
    match &s.manager {
        None => true,
        Some(m) => is_valid_record(m),
    }
}

/// What is known before a run of cards.
#[tactic(auto, using(crate::proofs::Sessions::none_at_zero))]
pub fn known_of(s: &Session) -> Known
    ensures { Knows result s.now }
{
    Known {
        is_sound: is_sound(s),
        due: 0,
    }
}

/// Cards are counted from 1; the count stops at the largest number.
pub(crate) fn count_next(cards: u64) -> u64
    ensures { result ≡ count_next cards }
{
    cards.saturating_add(1)
}

// ---- what an event gives; `known` is what is known of the session, and says it again of the session after the event

// Set-up comes once, and before all others.
#[tactic(auto, using(crate::proofs::Sessions::fresh_valid, crate::proofs::Sessions::fresh_not_due), unfolding(crate::specs::Sessions::event_given, crate::specs::Sessions::set_up_event, crate::specs::Sessions::given_by, crate::specs::Sessions::refused_card, crate::specs::Sessions::with_manager, lease::specs::SetUp::setup_of))]
pub(crate) fn run_set_up(
    s: &mut Session,
    known: &mut Known,
    u: SetUpCall,
) -> Result<(), CardRefusal>
    requires { Knows known.old s.old }
    ensures session_after { s.new ≡ (event_given s.old s.old.manager (E.SetUp u)).session }
    ensures value { done result ≡ (event_given s.old s.old.manager (E.SetUp u)).outcome }
    ensures stays { Knows known.new s.new }
{
    if s.manager.is_some() {
        return Err(CardRefusal::OutOfTurn);
    }
    check_set_up(u.me, u.population, u.expire_timeout, u.heartbeat, u.now)?;
    s.manager = Some(fresh_manager(u.me, u.population, u.expire_timeout, u.now));
    Ok(())
}

// Timers fire under the active number.
#[tactic(auto, unfolding(lease::specs::Rules::advance_of, crate::specs::Sessions::event_given, crate::specs::Sessions::advance_event, crate::specs::Sessions::given_by, crate::specs::Sessions::refused_card, crate::specs::Sessions::with_manager))]
pub(crate) fn run_advance(
    s: &mut Session,
    known: &mut Known,
    to: Reading,
) -> Result<(LeaseNum, Advanced), CardRefusal>
    requires { Knows known.old s.old }
    ensures session_after { s.new ≡ (event_given s.old s.old.manager (E.Advance to)).session }
    ensures value { fired result ≡ (event_given s.old s.old.manager (E.Advance to)).outcome }
    ensures stays { Knows known.new s.new }
{
    let Some(m) = &mut s.manager else {
        return Err(CardRefusal::OutOfTurn);
    };
    if !known.is_sound {
        return Err(CardRefusal::Call(Refusal::InvalidRecord));
    }
    let advanced = advance_due(m, &mut known.due, to)?;
    Ok((m.active_num, advanced))
}

// An advance to a reading at which it is known that nothing is due, and the line that ends quiet time, if it ends; none where that is not
// known, or the card is refused.
#[tactic(auto, unfolding(crate::specs::Sessions::event_given, crate::specs::Sessions::advance_event, crate::specs::Sessions::given_by, crate::specs::Sessions::refused_card, crate::specs::Sessions::with_manager))]
pub(crate) fn pass_time(
    s: &mut Session,
    known: &Known,
    to: Reading,
) -> Option<(LeaseNum, Option<Line>)>
    requires { Knows known.now s.old }
    ensures session_after { IfSome result (λ passed. s.new ≡ (event_given s.old s.old.manager (E.Advance to)).session) }
    ensures value { IfSome result (λ passed. nothing_given passed ≡ (event_given s.old s.old.manager (E.Advance to)).outcome) }
    ensures none_stays { result ≡ None → s.new ≡ s.old }
    ensures stays { Knows known.now s.new }
{
    let Some(m) = &mut s.manager else {
        return None;
    };
    if !known.is_sound || to.0 >= known.due || check_advance(m.now, to).is_err() {
        return None;
    }
    let line = time_passes(m, known.due, to);
    Some((m.active_num, line))
}

#[inline(always)]
#[tactic(auto, unfolding(lease::specs::Rules::notice_of, crate::specs::Sessions::event_given, crate::specs::Sessions::notice_event, crate::specs::Sessions::given_by, crate::specs::Sessions::refused_card, crate::specs::Sessions::with_manager))]
pub(crate) fn run_notice(
    s: &mut Session,
    known: &mut Known,
    num: LeaseNum,
    notice: LeaseNotice,
    turn: &mut Turn,
) -> Result<(), CardRefusal>
    requires { Knows known.old s.old }
    ensures session_after { s.new ≡ (event_given s.old s.old.manager (E.Notice num notice)).session }
    ensures value { acted num turn.new result ≡ (event_given s.old s.old.manager (E.Notice num notice)).outcome }
    ensures stays { Knows known.new s.new }
{
    let Some(m) = &mut s.manager else {
        return Err(CardRefusal::OutOfTurn);
    };
    if !known.is_sound {
        return Err(CardRefusal::Call(Refusal::InvalidRecord));
    }
    notice_due(m, &mut known.due, num, notice, turn)?;
    Ok(())
}

// ---- cards

/// A card, as its line was read: what it gives, and the session after it, and what is known of it. Refused as `take_card`.
#[tactic(auto, unfolding(crate::specs::Sessions::card_given, crate::specs::Sessions::counted, crate::specs::Sessions::given_by, crate::specs::Sessions::refused_card))]
pub fn take_known(
    s: &mut Session,
    known: &mut Known,
    read: Result<Event, CardRefusal>,
) -> Result<CardGiven, CardRefusal>
    requires { Knows known.old s.old }
    ensures session_after { s.new ≡ (card_given s.old read).session }
    ensures value { result ≡ (card_given s.old read).outcome }
    ensures stays { Knows known.new s.new }
{
    s.cards = count_next(s.cards);
    match read? {
        Event::SetUp(u) => run_set_up(s, known, u).map(|()| CardGiven::Done),
        Event::Advance(to) => run_advance(s, known, to).map(|(num, a)| CardGiven::Fired(
            num,
            a.fired,
            a.quiet_end,
        )),
        Event::Notice(num, notice) => {
            let mut turn = Turn::NONE;
            run_notice(s, known, num, notice, &mut turn)?;
            Ok(CardGiven::Acted(number_actions(num, turn.higher, turn.actions)))
        }
    }
}

/// A card, as its line was read: what it gives, and the session after it. Refused with 21 or 22 as its line was, with 23 where it is out of
/// turn, else as its call is (rule 14.3); a refused card is counted and changes nothing else (rule 10.31).
pub fn take_card(
    s: &mut Session,
    read: Result<Event, CardRefusal>,
) -> Result<CardGiven, CardRefusal>
    ensures session_after { s.new ≡ (card_given s.old read).session }
    ensures value { result ≡ (card_given s.old read).outcome }
    ensures number { (line : List ℕ) → read ≡ event_read line → refused_with result ≡ card_number s.old.manager line }
{
    let mut known = known_of(s);
    take_known(s, &mut known, read)
}

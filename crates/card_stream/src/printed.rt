// A card on the session where it stands, and its lines, written as it ends (rules 14.3, 14.4): what the card gives goes from the call to its
// lines and is not put together in between. Each function writes at the start of `out`, and answers how many bytes. Definitions in specs/Feed.

ghost use Rattle.std.specs.Prelude.{◌≤◌, ◌≡◌, length, Err};
ghost use Rattle.wire.specs.declared.events.Event.TheVariants as E;
ghost use Rattle.card_text.specs.Lines.{laid, line_bytes, most_bytes};
ghost use Rattle.card_stream.specs.Sessions.{Knows, event_given, card_given};
ghost use Rattle.card_stream.specs.Feed.{given_text};

use crate::session::{Known, Session, count_next, pass_time, run_advance, run_notice, run_set_up};
use card_text::line::{put_actions, put_fired_end, put_quiet_end, put_refused};
use engine::notices::Turn;
use lease::{LeaseNotice, LeaseNum, Reading};
use wire::events::{CardRefusal, Event, SetUpCall};

// Set-up prints nothing.
#[tactic(auto, unfolding(crate::specs::Feed::given_text, card_text::specs::Lines::outcome_lines, card_text::specs::Lines::text_of))]
fn put_set_up(s: &mut Session, known: &mut Known, u: SetUpCall, out: &mut [u8]) -> usize
    requires known { Knows known.old s.old }
    requires room { most_bytes ≤ length out.old }
    ensures session_after { s.new ≡ (event_given s.old s.old.manager (E.SetUp u)).session }
    ensures value { result ≡ length (given_text (event_given s.old s.old.manager (E.SetUp u))) }
    ensures out_after { out.new ≡ laid (given_text (event_given s.old s.old.manager (E.SetUp u))) out.old }
    ensures stays { Knows known.new s.new }
{
    match run_set_up(s, known, u) {
        Ok(()) => 0,
        Err(refusal) => put_refused(out, s.cards, refusal),
    }
}

// The timers that fired, and the end of quiet time. Out of line: few advances come here, and what they give is large.
#[inline(never)]
#[tactic(auto, unfolding(crate::specs::Feed::given_text, card_text::specs::Lines::outcome_lines, card_text::specs::Lines::text_of))]
fn put_looked(s: &mut Session, known: &mut Known, to: Reading, out: &mut [u8]) -> usize
    requires known { Knows known.old s.old }
    requires room { most_bytes ≤ length out.old }
    ensures session_after { s.new ≡ (event_given s.old s.old.manager (E.Advance to)).session }
    ensures value { result ≡ length (given_text (event_given s.old s.old.manager (E.Advance to))) }
    ensures out_after { out.new ≡ laid (given_text (event_given s.old s.old.manager (E.Advance to))) out.old }
    ensures stays { Knows known.new s.new }
{
    match run_advance(s, known, to) {
        Ok((num, advanced)) => put_fired_end(out, num, &advanced.fired, advanced.quiet_end),
        Err(refusal) => put_refused(out, s.cards, refusal),
    }
}

// An advance. Mostly it is known that nothing is due, and no list of timers is made.
#[tactic(auto, using(card_text::proofs::LineText::nothing_listed), unfolding(crate::specs::Feed::given_text, card_text::specs::Lines::outcome_lines, card_text::specs::Lines::text_of))]
fn put_advance(s: &mut Session, known: &mut Known, to: Reading, out: &mut [u8]) -> usize
    requires known { Knows known.old s.old }
    requires room { most_bytes ≤ length out.old }
    ensures session_after { s.new ≡ (event_given s.old s.old.manager (E.Advance to)).session }
    ensures value { result ≡ length (given_text (event_given s.old s.old.manager (E.Advance to))) }
    ensures out_after { out.new ≡ laid (given_text (event_given s.old s.old.manager (E.Advance to))) out.old }
    ensures stays { Knows known.new s.new }
{
    if let Some((_num, line)) = pass_time(s, known, to) {
        return put_quiet_end(out, line);
    }
    put_looked(s, known, to, out)
}

// The actions of a notice.
#[inline(always)]
#[tactic(auto, unfolding(crate::specs::Feed::given_text, card_text::specs::Lines::outcome_lines, card_text::specs::Lines::text_of))]
fn put_noticed(
    s: &mut Session,
    known: &mut Known,
    num: LeaseNum,
    notice: LeaseNotice,
    out: &mut [u8],
) -> usize
    requires known { Knows known.old s.old }
    requires room { most_bytes ≤ length out.old }
    ensures session_after { s.new ≡ (event_given s.old s.old.manager (E.Notice num notice)).session }
    ensures value { result ≡ length (given_text (event_given s.old s.old.manager (E.Notice num notice))) }
    ensures out_after { out.new ≡ laid (given_text (event_given s.old s.old.manager (E.Notice num notice))) out.old }
    ensures stays { Knows known.new s.new }
{
    let mut turn = Turn::NONE;
    match run_notice(s, known, num, notice, &mut turn) {
        Ok(()) => put_actions(out, num, turn.higher, &turn.actions),
        Err(refusal) => put_refused(out, s.cards, refusal),
    }
}

/// A card whose line is refused: it is counted, and gets line 20.
#[tactic(auto, unfolding(crate::specs::Feed::given_text, crate::specs::Sessions::card_given, crate::specs::Sessions::counted, crate::specs::Sessions::given_by, crate::specs::Sessions::refused_card))]
pub(crate) fn put_refused_card(s: &mut Session, refusal: CardRefusal, out: &mut [u8]) -> usize
    requires { line_bytes ≤ length out.old }
    ensures session_after { s.new ≡ (card_given s.old (Err refusal)).session }
    ensures value { result ≡ length (given_text (card_given s.old (Err refusal))) }
    ensures out_after { out.new ≡ laid (given_text (card_given s.old (Err refusal))) out.old }
    ensures record_stays { s.new.manager ≡ s.old.manager }
{
    s.cards = count_next(s.cards);
    put_refused(out, s.cards, refusal)
}

/// A card, as its line was read, and what is known of the session after it.
#[inline(always)]
#[tactic(auto, unfolding(crate::specs::Feed::given_text, crate::specs::Sessions::card_given, crate::specs::Sessions::counted))]
pub(crate) fn put_card(
    s: &mut Session,
    known: &mut Known,
    read: Result<Event, CardRefusal>,
    out: &mut [u8],
) -> usize
    requires known { Knows known.old s.old }
    requires room { most_bytes ≤ length out.old }
    ensures session_after { s.new ≡ (card_given s.old read).session }
    ensures value { result ≡ length (given_text (card_given s.old read)) }
    ensures out_after { out.new ≡ laid (given_text (card_given s.old read)) out.old }
    ensures stays { Knows known.new s.new }
{
    let event = match read {
        Err(refusal) => return put_refused_card(s, refusal, out),
        Ok(event) => event,
    };
    s.cards = count_next(s.cards);
    match event {
        Event::SetUp(u) => put_set_up(s, known, u, out),
        Event::Advance(to) => put_advance(s, known, to, out),
        Event::Notice(num, notice) => put_noticed(s, known, num, notice, out),
    }
}

// Reading event cards from bytes (rule 14.5): the line so far, byte by byte, and the session that its cards have left; a line that stands
// whole in the input is read straight from there. Every program that reads cards reads them by this. Definitions in specs/Reader.

ghost use Rattle.std.specs.Prelude.{ℕ, List, [], ◌≤◌, ◌≡◌, ◌≢◌, ◌++◌, length, take, get_or, Option, IfSome};
ghost use Rattle.card_stream.specs.Sessions.{card_given, Knows};
ghost use Rattle.card_stream.specs.Reader.{session_of, blank_reader, ended_by, ended, byte_next, chunk_next, end_next, end_given, HasRead};
ghost use Rattle.card_stream.specs.Feed.{feed_text, CardStands};

use crate::partial::{EMPTY, Partial};
use crate::session::{Known, Session, blank_session, known_of, take_known};
use card_text::card::{CARD, COLUMNS, event_in, read_card};
use wire::calls::CallC;
use wire::events::{CardGiven, CardRefusal, Event};

/// The most bytes that programs read, and hand over, at a time.
pub const MOST_INPUT: usize = 4096;

/// What ends a line.
pub const NEWLINE: u8 = b'\n';

/// What is kept between two bytes: the line so far, and the session that the cards before it have left.
#[derive(Clone, Drop)]
pub struct CardReader {
    pub partial: Partial,
    pub session: Session,
}

/// Before the first byte.
#[tactic(auto, unfolding(crate::specs::Reader::blank_reader))]
pub fn blank_reader() -> CardReader
    ensures { result ≡ blank_reader }
{
    CardReader {
        partial: EMPTY,
        session: blank_session(),
    }
}

impl CardReader {
    // The line ends, read so: its card is taken. Answers what it gives.
    #[tactic(auto, unfolding(crate::specs::Reader::ended_by))]
    fn end_line(
        &mut self,
        known: &mut Known,
        read: Result<Event, CardRefusal>,
    ) -> Result<CardGiven, CardRefusal>
        requires { Knows known.old self.old.session }
        ensures self_after { self.new ≡ ended_by self.old (card_given self.old.session read) }
        ensures value { result ≡ (card_given self.old.session read).outcome }
        ensures stays { Knows known.new self.new.session }
    {
        self.partial.filled = 0;
        take_known(&mut self.session, known, read)
    }

    // The card that stands in front of the input where no line has begun; none where its 73 columns are no numbers or no newline stands
    // behind them.
    #[inline(always)]
    pub(crate) fn card_in(&self, input: &[u8]) -> Option<CallC>
        ensures { IfSome result (λ card. CardStands self.now input.now card) }
    {
        if self.partial.filled > 0 || input.len() < CARD || input[COLUMNS] != NEWLINE {
            return None;
        }
        read_card(&input[..COLUMNS])
    }

    // The line so far ends, where nothing is asked for but the session. Here and below `known` is what is known of the session. What a card gives is held here alone: a function fills its locals each time, and `take_next` is called for each line.
    #[inline(never)]
    #[tactic(auto, unfolding(crate::specs::Reader::line_given))]
    fn pass_newline(&mut self, known: &mut Known)
        requires { Knows known.old self.old.session }
        ensures self_after { self.new ≡ ended self.old }
        ensures stays { Knows known.new self.new.session }
    {
        let read = self.partial.read();
        let _outcome = self.end_line(known, read);
    }

    // The line of that card, straight from the input, and its newline.
    fn pass_line(&mut self, known: &mut Known, input: &[u8], card: CallC)
        requires known { Knows known.old self.old.session }
        requires stands { CardStands self.old input.now card }
        ensures self_after { self.new ≡ chunk_next self.old (take 74 input.now) }
        ensures stays { Knows known.new self.new.session }
    {
        self.partial.hold(&input[..COLUMNS]);
        let _outcome = self.end_line(known, event_in(card));
    }

    // The bytes in front of the input that stand before a newline, or all: they print nothing. Answers how many they are.
    pub(crate) fn keep_bytes(&mut self, input: &[u8]) -> usize
        requires some { 1 ≤ length input.now }
        requires first { get_or input.now 0 0 ≢ 10 }
        ensures bounds { (1 ≤ result) × (result ≤ length input.now) }
        ensures self_after { self.new ≡ chunk_next self.old (take result input.now) }
        ensures silent { feed_text self.old (take result input.now) ≡ [] }
        ensures session { self.new.session ≡ self.old.session }
    {
        let mut taken = 0;
        while taken < input.len() && input[taken] != NEWLINE {
            self.partial.push(input[taken]);
            taken += 1;
        }
        taken
    }

    // A line, and where no card stands the bytes before a newline, or the newline. Answers how many bytes were taken.
    fn take_next(&mut self, known: &mut Known, input: &[u8]) -> usize
        requires known { Knows known.old self.old.session }
        requires some { 1 ≤ length input.now }
        ensures bounds { (1 ≤ result) × (result ≤ length input.now) }
        ensures self_after { self.new ≡ chunk_next self.old (take result input.now) }
        ensures stays { Knows known.new self.new.session }
    {
        if let Some(card) = self.card_in(input) {
            self.pass_line(known, input, card);
            return CARD;
        }
        if input[0] != NEWLINE {
            return self.keep_bytes(input);
        }
        self.pass_newline(known);
        1
    }

    /// All bytes of a chunk, for a program that asks for nothing but the session that its cards leave. Where a chunk ends changes nothing
    /// (rule 14.5).
    pub fn take_chunk(&mut self, input: &[u8])
        ensures self_after { self.new ≡ chunk_next self.old input.now }
        ensures has_read { (before : List ℕ) → HasRead self.old before → HasRead self.new (before ++ input.now) }
    {
        let mut known = known_of(&self.session);
        let mut taken = 0;
        while taken < input.len() {
            taken += self.take_next(&mut known, &input[taken..]);
        }
    }

    /// The input ends: a line that has begun and no newline is a card that is not of the form. Answers what it gives. The session is then that
    /// of the whole input (rule 14.5).
    #[tactic(auto, unfolding(crate::specs::Reader::end_next, crate::specs::Reader::end_given, crate::specs::Reader::last_given))]
    pub fn take_end(&mut self) -> Option<Result<CardGiven, CardRefusal>>
        ensures self_after { self.new ≡ end_next self.old }
        ensures value { result ≡ end_given self.old }
        ensures whole { (input : List ℕ) → HasRead self.old input → self.new.session ≡ session_of input }
    {
        if self.partial.filled == 0 {
            return None;
        }
        let mut known = known_of(&self.session);
        Some(self.end_line(&mut known, Err(CardRefusal::NotOfForm)))
    }
}

// The line so far (rule 14.5): its bytes are kept one by one, up to 73 of them, and read as a card where it ends. Definitions in
// specs/Partials.

ghost use Rattle.std.specs.Prelude.{◌≡◌, cond, length, Option, None, Some, Result, Ok};
ghost use Rattle.wire.specs.Events.{is_carried};
ghost use Rattle.card_text.specs.Cards.{refused_with};
ghost use Rattle.card_stream.specs.Partials.{kept_by, partial_read, partial_number, Holds};

use card_text::card::{CARD, COLUMNS, read_event, write_card};
use wire::events::{CardRefusal, Event};

/// The line so far.
#[derive(Clone, Copy)]
pub struct Partial {
    /// How long the line is, 74 for any length above 73.
    pub filled: usize,
    /// Its first 73 bytes; those from `filled` on mean nothing.
    pub columns: [u8; COLUMNS],
}

/// Before a line's first byte.
pub const EMPTY: Partial = Partial {
    filled: 0,
    columns: [0; COLUMNS],
};

impl Partial {
    /// One byte more.
    #[tactic(auto, unfolding(crate::specs::Partials::kept_by))]
    pub fn push(&mut self, b: u8)
        ensures { self.new ≡ kept_by self.old b }
    {
        if self.filled < COLUMNS {
            self.columns[self.filled] = b;
            self.filled += 1;
        } else {
            self.filled = COLUMNS + 1;
        }
    }

    // The bytes of a whole line, without its newline.
    pub(crate) fn hold(&mut self, line: &[u8])
        requires { length line.now ≡ 73 }
        ensures filled { self.new.filled ≡ self.old.filled }
        ensures columns { self.new.columns ≡ line.now }
    {
        self.columns.copy_from_slice(line);
    }

    /// The line so far, read as a card: it ends here. Refused with 21 where it is not of 73 columns of numbers, with 22 where they are no
    /// card (rule 14.3).
    #[tactic(auto, unfolding(crate::specs::Partials::partial_read, crate::specs::Partials::partial_number))]
    pub fn read(&self) -> Result<Event, CardRefusal>
        ensures value { result ≡ partial_read self.now }
        ensures number { refused_with result ≡ partial_number self.now }
    {
        if self.filled == COLUMNS {
            return read_event(&self.columns);
        }
        Err(CardRefusal::NotOfForm)
    }
}

// Those bytes, kept one by one.
fn line_of(bytes: &[u8]) -> Partial
    ensures { Holds result bytes.now }
{
    let mut line = EMPTY;
    for b in bytes {
        line.push(*b);
    }
    line
}

/// The event that is read, byte by byte, in the card that is written for this one: the same event (rule 14.6); none where no card can carry
/// it.
#[tactic(auto, unfolding(card_text::specs::Cards::can_write_card))]
pub fn read_written(e: Event) -> Option<Result<Event, CardRefusal>>
    ensures { result ≡ cond (is_carried e) (Some (Ok e)) None }
{
    let mut card = [0; CARD];
    if !write_card(e, &mut card) {
        return None;
    }
    Some(line_of(&card[..COLUMNS]).read())
}

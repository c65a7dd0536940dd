// Event cards (section 14): a line of 73 columns, the six numbers in it, and the event that they say, both ways. Definitions in
// specs/Cards.

ghost use Rattle.std.specs.Prelude.{◌≡◌, ◌∷◌, [], cond, length, take, Option, Some, Ok};
ghost use Rattle.std.specs.Bool.{OnTrue};
ghost use Rattle.std.proofs.lemmas.List.Edits.{sets};
ghost use Rattle.wire.specs.Events.{card_of};
ghost use Rattle.card_text.specs.Cards.{card_read, event_in, event_read, form_number, card_line, can_write_card, line_number, refused_with, cards_in};
ghost use Rattle.card_text.specs.Claims.{WideCard};

use crate::columns::{number_of_2, number_of_4, number_of_21, put_column};
use wire::calls::CallC;
use wire::events::{CardRefusal, Event, card_of, event_if_card, is_carried};

/// How long a card is, in bytes, without its newline.
pub const COLUMNS: usize = 73;

/// And with its newline.
pub const CARD: usize = COLUMNS + 1;

// ---- reading

/// The six numbers of a line, which is handed in without its newline; none where the line is not of the form (rule 14.1).
#[inline(always)]
#[tactic(auto, unfolding(crate::specs::Cards::card_read))]
pub fn read_card(line: &[u8]) -> Option<CallC>
    ensures { result ≡ card_read line.now }
{
    if line.len() != COLUMNS {
        return None;
    }
    // By the bounds of the columns.
    Some(CallC {
        code: number_of_2(&line[..2])?,
        number: number_of_21(&line[2..23])?,
        peer: number_of_4(&line[23..27])?,
        size: number_of_4(&line[27..31])?,
        first: number_of_21(&line[31..52])?,
        second: number_of_21(&line[52..73])?,
    })
}

/// The event of a card's six numbers. Refused with 22 where they are no card (rule 14.3).
#[inline(always)]
pub fn event_in(c: CallC) -> Result<Event, CardRefusal>
    ensures value { result ≡ event_in (Some c) }
    ensures number { refused_with result ≡ form_number (Some c) }
{
    event_if_card(c).ok_or(CardRefusal::NoCard)
}

/// The event of a line, which is handed in without its newline. Refused with 21 where the line is not of the form, with 22 where its
/// numbers are no card (rule 14.3).
#[tactic(auto, unfolding(crate::specs::Cards::event_read, crate::specs::Cards::line_number))]
pub fn read_event(line: &[u8]) -> Result<Event, CardRefusal>
    ensures value { result ≡ event_read line.now }
    ensures number { refused_with result ≡ line_number line.now }
{
    let c = read_card(line).ok_or(CardRefusal::NotOfForm)?;
    event_in(c)
}

// ---- writing

// The card of six numbers, with its newline.
#[tactic(auto, unfolding(crate::specs::Cards::card_text))]
fn card_line(c: CallC) -> [u8; CARD]
    ensures value { result ≡ card_line c }
    ensures wide { WideCard c }
{
    let mut line = [b'\n'; CARD];
    let (code, line_left) = line.split_at_mut(2);
    let (number, line_left) = line_left.split_at_mut(21);
    let (peer, line_left) = line_left.split_at_mut(4);
    let (size, line_left) = line_left.split_at_mut(4);
    let (first, line_left) = line_left.split_at_mut(21);
    let (second, _newline) = line_left.split_at_mut(21);
    put_column(code, c.code);
    put_column(number, c.number);
    put_column(peer, c.peer);
    put_column(size, c.size);
    put_column(first, c.first);
    put_column(second, c.second);
    line
}

/// Writes the card of an event with its newline, 74 bytes, at the start of `out`, and answers true: a reader gives back exactly that event
/// (rule 14.6). Answers false and writes nothing, where a card cannot carry the event or has no room.
#[tactic(auto, using(crate::proofs::Cards::length_line, crate::proofs::Cards::line_laid), unfolding(crate::specs::Cards::can_write_card))]
pub fn write_card(e: Event, out: &mut [u8]) -> bool
    ensures value { result ≡ can_write_card e (length out.old) }
    ensures out_after { out.new ≡ cond (can_write_card e (length out.old)) (sets out.old 0 (card_line (card_of e))) out.old }
    ensures comes_back { OnTrue result (cards_in (take 74 out.new) ≡ Ok e ∷ []) }
{
    if out.len() < CARD || !is_carried(e) {
        return false;
    }
    let line = card_line(card_of(e));
    out[..CARD].copy_from_slice(&line);
    true
}

// The bytes of event cards to the bytes of output lines, a chunk at a time (rules 14.4, 14.5). Definitions in specs/Feed.

ghost use Rattle.std.specs.Prelude.{ℕ, List, ◌++◌, ◌+◌, ◌-◌, ◌≤◌, ◌≡◌, cond, leb, length, take, drop};
ghost use Rattle.std.proofs.lemmas.List.Edits.{sets};
ghost use Rattle.card_text.specs.Lines.{laid, line_bytes, most_bytes};
ghost use Rattle.card_stream.specs.Reader.{blank_reader, line_given, ended, chunk_next, end_next, HasRead};
ghost use Rattle.card_stream.specs.Sessions.{Knows};
ghost use Rattle.card_stream.specs.Feed.{replay_text, given_text, feed_text, last_text, bytes_taken, last_bytes, CardStands, Fed};

use crate::printed::{put_card, put_refused_card};
use crate::reader::{CardReader, NEWLINE};
use crate::session::{Known, known_of};
use card_text::card::{CARD, COLUMNS, event_in};
use card_text::line::{LINE, MOST};
use wire::calls::CallC;
use wire::events::CardRefusal;

/// How many bytes of an input were taken, and how many were written.
#[derive(Clone, Copy)]
pub struct Progress {
    pub taken: usize,
    pub written: usize,
}

// In each of these `known` is what is known of the session, before and after.

// The end of a line, and the lines of its card: answers how many bytes they are. Out of line, since most cards stand whole in the input.
#[inline(never)]
#[tactic(auto, unfolding(crate::specs::Reader::ended_by, crate::specs::Reader::line_given))]
fn feed_newline(reader: &mut CardReader, known: &mut Known, out: &mut [u8]) -> usize
    requires known { Knows known.old reader.old.session }
    requires room { most_bytes ≤ length out.old }
    ensures reader_after { reader.new ≡ ended reader.old }
    ensures value { result ≡ length (given_text (line_given reader.old)) }
    ensures out_after { out.new ≡ laid (given_text (line_given reader.old)) out.old }
    ensures upper_bound { result ≤ length out.new }
    ensures stays { Knows known.new reader.new.session }
{
    let read = reader.partial.read();
    reader.partial.filled = 0;
    put_card(&mut reader.session, known, read, out)
}

// The line of the card that stands in front of the input, and the lines that it gives.
fn feed_line(
    reader: &mut CardReader,
    known: &mut Known,
    input: &[u8],
    card: CallC,
    out: &mut [u8],
) -> usize
    requires known { Knows known.old reader.old.session }
    requires stands { CardStands reader.old input.now card }
    requires room { most_bytes ≤ length out.old }
    ensures reader_after { reader.new ≡ chunk_next reader.old (take 74 input.now) }
    ensures value { result ≡ length (feed_text reader.old (take 74 input.now)) }
    ensures out_after { out.new ≡ laid (feed_text reader.old (take 74 input.now)) out.old }
    ensures rest { bytes_taken reader.old input.now (length out.old) ≡ 74 + bytes_taken reader.new (drop 74 input.now) (length out.old - result) }
    ensures upper_bound { result ≤ length out.new }
    ensures stays { Knows known.new reader.new.session }
{
    let written = put_card(&mut reader.session, known, event_in(card), out);
    reader.partial.hold(&input[..COLUMNS]);
    written
}

// The line of a card that stands in front of the input, its bytes before a newline, or the newline; and the lines of the card that they end.
fn feed_next(reader: &mut CardReader, known: &mut Known, input: &[u8], out: &mut [u8]) -> Progress
    requires known { Knows known.old reader.old.session }
    requires some { 1 ≤ length input.now }
    requires room { most_bytes ≤ length out.old }
    ensures taken { (1 ≤ result.taken) × (result.taken ≤ length input.now) }
    ensures reader_after { reader.new ≡ chunk_next reader.old (take result.taken input.now) }
    ensures written { result.written ≡ length (feed_text reader.old (take result.taken input.now)) }
    ensures out_after { out.new ≡ laid (feed_text reader.old (take result.taken input.now)) out.old }
    ensures rest { bytes_taken reader.old input.now (length out.old) ≡ result.taken + bytes_taken reader.new (drop result.taken input.now) (length out.old - result.written) }
    ensures upper_bound { result.written ≤ length out.new }
    ensures stays { Knows known.new reader.new.session }
{
    if let Some(card) = reader.card_in(input) {
        return Progress {
            taken: CARD,
            written: feed_line(reader, known, input, card, out),
        };
    }
    if input[0] != NEWLINE {
        return Progress {
            taken: reader.keep_bytes(input),
            written: 0,
        };
    }
    Progress {
        taken: 1,
        written: feed_newline(reader, known, out),
    }
}

/// Takes bytes of the input while `out` has room left for the most that a card gives, and writes the lines of the cards that end in them at
/// the start of `out`. What is not taken is for the next call: where one ends changes nothing (rule 14.5).
pub fn feed(reader: &mut CardReader, input: &[u8], out: &mut [u8]) -> Progress
    ensures taken { result.taken ≡ bytes_taken reader.old input.now (length out.old) }
    ensures reader_after { reader.new ≡ chunk_next reader.old (take result.taken input.now) }
    ensures written { result.written ≡ length (feed_text reader.old (take result.taken input.now)) }
    ensures out_after { out.new ≡ laid (feed_text reader.old (take result.taken input.now)) out.old }
    ensures so_far { (before : List ℕ) → HasRead reader.old before → Fed reader.new before (take result.taken input.now) (take result.written out.new) }
    ensures in_bounds { (result.taken ≤ length input.now) × (result.written ≤ length out.new) }
    ensures goes_on { most_bytes ≤ length out.old → 1 ≤ length input.now → 1 ≤ result.taken }
{
    let mut known = known_of(&reader.session);
    let mut taken = 0;
    let mut written = 0;
    while taken < input.len() && out.len() - written >= MOST {
        let next = feed_next(reader, &mut known, &input[taken..], &mut out[written..]);
        taken += next.taken;
        written += next.written;
    }
    Progress { taken, written }
}

// The line of an end that has room for one.
#[tactic(auto, unfolding(crate::specs::Reader::end_next, crate::specs::Reader::last_given, crate::specs::Reader::ended_by, crate::specs::Feed::last_text))]
fn finish_line(reader: &mut CardReader, out: &mut [u8]) -> usize
    requires { line_bytes ≤ length out.old }
    ensures reader_after { reader.new ≡ end_next reader.old }
    ensures value { result ≡ length (last_text reader.old) }
    ensures out_after { out.new ≡ laid (last_text reader.old) out.old }
{
    if reader.partial.filled == 0 {
        return 0;
    }
    reader.partial.filled = 0;
    put_refused_card(&mut reader.session, CardRefusal::NotOfForm, out)
}

/// The input ends: a line that has begun and no newline is refused with 21. Answers how many bytes were written: behind what was written for
/// the chunks before they are what the whole input prints (rules 14.4, 14.5). Where there is no room for a line, nothing is taken and nothing
/// written.
#[tactic(auto, using(crate::proofs::Bytes::last_length, crate::proofs::Bytes::last_laid), unfolding(crate::specs::Feed::last_bytes))]
pub fn finish(reader: &mut CardReader, out: &mut [u8]) -> usize
    ensures reader_after { reader.new ≡ cond (leb line_bytes (length out.old)) (end_next reader.old) reader.old }
    ensures value { result ≡ length (last_bytes reader.old (length out.old)) }
    ensures out_after { out.new ≡ sets out.old 0 (last_bytes reader.old (length out.old)) }
    ensures whole { line_bytes ≤ length out.old → (input : List ℕ) → HasRead reader.old input → feed_text blank_reader input ++ take result out.new ≡ replay_text input }
    ensures upper_bound { result ≤ length out.new }
{
    if out.len() < LINE {
        return 0;
    }
    finish_line(reader, out)
}

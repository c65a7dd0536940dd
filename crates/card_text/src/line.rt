// Output lines (rule 14.4): 69 columns and a newline. Writing the lines of what a card gives, and reading one line back. Definitions in
// specs/Lines.

ghost use Rattle.std.specs.Prelude.{false, ◌≤◌, ◌≡◌, ◌∷◌, [], cond, length, take, Option, Some, Ok, Err};
ghost use Rattle.wire.specs.declared.events.CardGiven.TheVariants as O;
ghost use Rattle.std.specs.Bool.{OnTrue};
ghost use Rattle.std.proofs.lemmas.List.Edits.{sets};
ghost use Rattle.lease.specs.Fired.{listed_in};
ghost use Rattle.lease.specs.Notices.{numbered};
ghost use Rattle.card_text.specs.Lines.{line_text, text_of, laid, timer_line, timer_lines, notice_lines, quiet_lines, outcome_text, line_bytes, two_lines, notice_bytes, timers_bytes, most_bytes, room_of, line_fits, can_write_line, line_read, lines_in};
ghost use Rattle.card_text.specs.Claims.{WideLine};

use crate::columns::{number_of, put_digits};
use lease::{Actions, FiredTimer, FiredTimers, LeaseAction, LeaseNum, Line, Lines, TIMERS};
use wire::events::{CardGiven, CardRefusal};
use wire::lines::{LineC, line_c, line_of};

// How long a line is, in bytes, without its newline.
const COLUMNS: usize = 69;

/// How long a line is, in bytes, with its newline.
pub const LINE: usize = COLUMNS + 1;

/// The most bytes that the lines of one card take: a line for each timer that can fire at once, and the quiet-end line.
pub const MOST: usize = TIMERS * LINE + LINE;

// ---- writing: each puts its lines at the start of `out`, and answers how many bytes they are

// A line that stands blank, with its newline.
const BLANK_LINE: [u8; LINE] =
    *b"                                                                     \n";

// A line with its newline: the digits of its numbers over a blank line. In line, so that the numbers need not be handed over in memory.
#[inline(always)]
#[tactic(auto, using(crate::proofs::LineText::length_line), unfolding(crate::specs::Lines::line_text, crate::specs::Lines::line_columns))]
fn put_line(out: &mut [u8], l: LineC) -> usize
    requires { line_bytes ≤ length out.old }
    ensures value { result ≡ length (line_text l) }
    ensures out_after { out.new ≡ laid (line_text l) out.old }
{
    out[..LINE].copy_from_slice(&BLANK_LINE);
    let (code, behind) = out.split_at_mut(2);
    let (number, behind) = behind.split_at_mut(21);
    let (peer, behind) = behind.split_at_mut(4);
    let (first, behind) = behind.split_at_mut(21);
    let (second, _behind) = behind.split_at_mut(21);
    put_digits(code, l.code);
    put_digits(number, l.number);
    put_digits(peer, l.peer);
    put_digits(first, l.first);
    put_digits(second, l.second);
    LINE
}

// The line of a fired timer.
fn timer_line(num: u64, t: FiredTimer) -> LineC
    ensures { result ≡ timer_line num t }
{
    line_c(if t.held { 15 } else { 14 }, num, u64::from(t.id), 0)
}

// The timers that fired, in the order of their list.
#[tactic(auto, using(crate::proofs::LineText::fired_length), unfolding(crate::specs::Lines::timer_lines, crate::specs::Lines::text_of))]
fn put_fired(out: &mut [u8], num: u64, fired: &FiredTimers) -> usize
    requires { timers_bytes ≤ length out.old }
    ensures value { result ≡ length (text_of (timer_lines num (listed_in fired.now))) }
    ensures out_after { out.new ≡ laid (text_of (timer_lines num (listed_in fired.now))) out.old }
{
    // By places, since the contract of `chunks_exact_mut` does not say what the bytes are afterwards.
    let listed = &fired.timers[..fired.count.min(TIMERS)];
    for (i, timer) in listed.iter().enumerate() {
        put_line(&mut out[i * LINE..], timer_line(num, *timer));
    }
    listed.len() * LINE
}

// The lines of actions under a number.
#[tactic(auto, using(crate::proofs::LineText::text_of_one, crate::proofs::LineText::first_laid), unfolding(crate::specs::Lines::notice_lines, crate::specs::Lines::text_of))]
fn put_under(out: &mut [u8], num: LeaseNum, actions: &Actions) -> usize
    requires { two_lines ≤ length out.old }
    ensures value { result ≡ length (text_of (notice_lines (numbered num false actions.now))) }
    ensures out_after { out.new ≡ laid (text_of (notice_lines (numbered num false actions.now))) out.old }
{
    match actions {
        Actions::None => 0,
        Actions::One(a) => put_line(out, line_of(Line(num, *a))),
        Actions::Two(a, b) => {
            let (first, second) = out.split_at_mut(LINE);
            put_line(first, line_of(Line(num, *a))) + put_line(second, line_of(Line(num, *b)))
        }
    }
}

/// Puts the lines of a notice's actions under its number, in order; where the number was raised, HigherNumber first (rules 7.2, 7.14).
#[tactic(auto, using(crate::proofs::LineText::higher_first, crate::proofs::LineText::first_laid))]
pub fn put_actions(out: &mut [u8], num: LeaseNum, higher: bool, actions: &Actions) -> usize
    requires { notice_bytes ≤ length out.old }
    ensures value { result ≡ length (text_of (notice_lines (numbered num higher actions.now))) }
    ensures out_after { out.new ≡ laid (text_of (notice_lines (numbered num higher actions.now))) out.old }
{
    if !higher {
        return put_under(out, num, actions);
    }
    let (first, behind) = out.split_at_mut(LINE);
    put_line(first, line_of(Line(num, LeaseAction::HigherNumber))) + put_under(behind, num, actions)
}

/// Puts the line that ends quiet time, if there is one.
#[tactic(auto, using(crate::proofs::LineText::text_of_one), unfolding(crate::specs::Lines::quiet_lines, crate::specs::Lines::text_of))]
pub fn put_quiet_end(out: &mut [u8], end: Option<Line>) -> usize
    requires { line_bytes ≤ length out.old }
    ensures value { result ≡ length (text_of (quiet_lines end)) }
    ensures out_after { out.new ≡ laid (text_of (quiet_lines end)) out.old }
{
    match end {
        None => 0,
        Some(line) => put_line(out, line_of(line)),
    }
}

/// Puts the line of a card that is refused, 20 with the card's number.
#[tactic(auto, using(crate::proofs::LineText::text_of_one), unfolding(crate::specs::Lines::outcome_lines, crate::specs::Lines::text_of))]
pub fn put_refused(out: &mut [u8], card: u64, refusal: CardRefusal) -> usize
    requires { line_bytes ≤ length out.old }
    ensures value { result ≡ length (outcome_text card (Err refusal)) }
    ensures out_after { out.new ≡ laid (outcome_text card (Err refusal)) out.old }
{
    let l = LineC {
        second: card,
        ..line_c(20, 0, 0, u64::from(refusal.number()))
    };
    put_line(out, l)
}

/// Puts the lines of what an advance fired, and the quiet-end line behind them, if there is one.
#[tactic(auto, using(crate::proofs::LineText::laid_behind, crate::proofs::LineText::text_of_both, crate::proofs::LineText::length_both, crate::proofs::LineText::fired_end), unfolding(crate::specs::Lines::outcome_lines, crate::specs::Lines::text_of))]
pub fn put_fired_end(out: &mut [u8], num: LeaseNum, fired: &FiredTimers, end: Option<Line>) -> usize
    requires { most_bytes ≤ length out.old }
    ensures value { result ≡ length (outcome_text 0 (Ok (O.Fired num fired.now end))) }
    ensures out_after { out.new ≡ laid (outcome_text 0 (Ok (O.Fired num fired.now end))) out.old }
{
    let fired_end = put_fired(out, num.0, fired);
    fired_end + put_quiet_end(&mut out[fired_end..], end)
}

// The lines of a notice, in order.
#[tactic(auto, using(crate::proofs::LineText::text_of_one, crate::proofs::LineText::first_laid), unfolding(crate::specs::Lines::notice_lines, crate::specs::Lines::text_of))]
fn put_notice(out: &mut [u8], lines: Lines) -> usize
    requires { notice_bytes ≤ length out.old }
    ensures value { result ≡ length (text_of (notice_lines lines)) }
    ensures out_after { out.new ≡ laid (text_of (notice_lines lines)) out.old }
{
    match lines {
        Lines::None => 0,
        Lines::One(a) => put_line(out, line_of(a)),
        Lines::Two(a, b) => {
            let (first, second) = out.split_at_mut(LINE);
            put_line(first, line_of(a)) + put_line(second, line_of(b))
        }
        Lines::Three(a, b, c) => {
            let (first, behind) = out.split_at_mut(LINE);
            let (second, third) = behind.split_at_mut(LINE);
            put_line(first, line_of(a)) + put_line(second, line_of(b)) + put_line(third, line_of(c))
        }
    }
}

/// Puts the lines of what the card of that number gives, whatever that is (rule 14.4).
#[tactic(auto, unfolding(crate::specs::Lines::room_of, crate::specs::Lines::outcome_lines, crate::specs::Lines::text_of))]
pub fn put_outcome(out: &mut [u8], card: u64, outcome: Result<CardGiven, CardRefusal>) -> usize
    requires { room_of outcome ≤ length out.old }
    ensures value { result ≡ length (outcome_text card outcome) }
    ensures out_after { out.new ≡ laid (outcome_text card outcome) out.old }
{
    match outcome {
        Err(refusal) => put_refused(out, card, refusal),
        Ok(CardGiven::Done) => 0,
        Ok(CardGiven::Acted(lines)) => put_notice(out, lines),
        Ok(CardGiven::Fired(num, fired, end)) => put_fired_end(out, num, &fired, end),
    }
}

// Whether the numbers have room in their columns.
#[tactic(auto, unfolding(crate::specs::Lines::line_fits))]
fn line_fits(l: LineC) -> bool
    ensures value { result ≡ line_fits l }
    ensures wide { WideLine l }
{
    l.code <= 99 && l.peer <= 9999
}

/// Writes a line with its newline, 70 bytes, at the start of `out`, and answers true: it is read back as exactly that line (rule 14.6).
/// Answers false and writes nothing, where the numbers have no room in their columns or the line has none in `out`.
#[tactic(auto, using(crate::proofs::LineText::line_laid), unfolding(crate::specs::Lines::can_write_line))]
pub fn write_line(l: LineC, out: &mut [u8]) -> bool
    ensures value { result ≡ can_write_line l (length out.old) }
    ensures out_after { out.new ≡ cond (can_write_line l (length out.old)) (sets out.old 0 (line_text l)) out.old }
    ensures comes_back { OnTrue result (lines_in (take line_bytes out.new) ≡ Some l ∷ []) }
{
    if out.len() < LINE || !line_fits(l) {
        return false;
    }
    let _length = put_line(out, l);
    true
}

// ---- reading

/// The five numbers of a line, which is handed in without its newline; none where the line is not of the form (rule 14.4).
#[tactic(auto, unfolding(crate::specs::Lines::line_read))]
pub fn read_line(line: &[u8]) -> Option<LineC>
    ensures { result ≡ line_read line.now }
{
    if line.len() != COLUMNS {
        return None;
    }
    // By the bounds of the columns.
    Some(LineC {
        code: number_of(&line[..2])?,
        number: number_of(&line[2..23])?,
        peer: number_of(&line[23..27])?,
        first: number_of(&line[27..48])?,
        second: number_of(&line[48..69])?,
    })
}

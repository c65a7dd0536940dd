// The calls on sets (section 2 of the rules): a card of code 50 + N is the call of rule 2.N. A set is size and first; of two sets the
// other is peer and second. The other arguments:
//     53 new  number: 1 for all ids          54 from a range  first and second: start and end      55 from a list  three ids
//     56 set  number: the id, peer: 1 for on  57 get  number: the id                               64 ones  peer: bytes lent, at most 4
// Lines: 20 a refusal, 32 a set, 33 a count, 35 a flag, and behind the answer of 64 the four bytes, 36.

use crate::host::refused_line;
use bitmap::{Bitmap, BitmapError, calls, lists, sets};
use std::alloc::{AllocError, Global};
use wire::calls::CallC;
use wire::lines::{LineC, line_c, set_line};

const BYTES: usize = 4;

// A size or an id, which are bytes: one above 255 counts as 255.
fn byte(n: u64) -> u8 {
    u8::try_from(n).unwrap_or(u8::MAX)
}

/// The set of a card, as it is written.
pub fn set_of(card: CallC) -> Bitmap {
    Bitmap {
        size: byte(card.size),
        bits: card.first,
    }
}

fn flag_line(on: bool) -> LineC {
    line_c(35, 0, 0, u64::from(on))
}

fn count_line(n: u8) -> LineC {
    line_c(33, 0, 0, u64::from(n))
}

fn bytes_line(bytes: [u8; BYTES]) -> LineC {
    let [number, peer, first, second] = bytes.map(u64::from);
    LineC {
        code: 36,
        number,
        peer,
        first,
        second,
    }
}

// What the call of a card answers. Ids are cast: Rust has no `From` between usize and u64.
fn answer(card: CallC) -> Result<LineC, BitmapError> {
    let set = set_of(card);
    let other = Bitmap {
        size: byte(card.peer),
        bits: card.second,
    };
    let id = card.number as usize;
    match card.code {
        53 => calls::new(set.size, card.number == 1).map(set_line),
        54 => sets::from_range(set.size, card.first as usize, card.second as usize).map(set_line),
        55 => {
            let ids = [byte(card.number), byte(card.first), byte(card.second)];
            lists::from_ids(set.size, &ids).map(set_line)
        }
        56 => calls::set(set, id, card.peer == 1).map(set_line),
        57 => calls::get(set, id).map(flag_line),
        58 => calls::size(set).map(count_line),
        59 => calls::count(set).map(count_line),
        60 => sets::flip(set).map(set_line),
        61 => sets::union(set, other).map(set_line),
        62 => sets::is_superset(set, other).map(flag_line),
        _ => sets::clear(set).map(set_line),
    }
}

fn outcome_line(outcome: Result<LineC, BitmapError>) -> LineC {
    outcome.unwrap_or_else(|refusal| refused_line(u64::from(refusal.number())))
}

/// The line of a call on sets but `ones`.
pub fn set_lines(alloc: Global, card: CallC) -> Result<Vec<LineC>, AllocError> {
    Ok(vec![in alloc; outcome_line(answer(card))]?)
}

/// The ones of a set, into as many of four bytes of 255 as are lent.
pub fn ones_lines(alloc: Global, card: CallC) -> Result<Vec<LineC>, AllocError> {
    let mut bytes = [u8::MAX; BYTES];
    let lent = usize::from(byte(card.peer)).min(BYTES);
    let count = lists::ones(set_of(card), &mut bytes[..lent]).map(count_line);
    Ok(vec![in alloc; outcome_line(count), bytes_line(bytes)]?)
}

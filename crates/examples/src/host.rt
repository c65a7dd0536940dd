// What a card of a call on the record gives: one of the host library's (rule 13.2), or 50, refresh with the set as it is written, since
// size 0 is no set on the host's cards. Lines: 20 with the number of a refusal in first; or the lines of the answer (rule
// 13.3) and behind those of an advance the fired timers in order, 14 sent and 15 held. Then the record's lines, if the call was
// accepted and is no question, or if it changed the record all the same.

use crate::notation::is_same;
use crate::records::record_lines;
use crate::sets::set_of;
use biasflint::biasflint_call;
use flat_record::from_flat::manager_of;
use flat_record::to_flat::flat_record;
use lease::{Answered, Bitmap, FiredTimer};
use leaseman::outer::attempt_refresh;
use std::alloc::{AllocError, Global};
use wire::answers::{AnswerC, set_answer};
use wire::calls::CallC;
use wire::flat::ManagerC;
use wire::lines::{LineC, line_c};

// The card of a refresh with the set as it is written.
const REFRESH: u64 = 50;

/// The line of a refusal.
pub fn refused_line(k: u64) -> LineC {
    line_c(20, 0, 0, k)
}

fn fired_line(t: FiredTimer) -> LineC {
    line_c(if t.held { 15 } else { 14 }, 0, u64::from(t.id), 0)
}

fn answer_lines(alloc: Global, answer: &AnswerC) -> Result<Vec<LineC>, AllocError> {
    let mut lines = Vec::new(alloc);
    if answer.refused > 0 {
        lines.push(refused_line(answer.refused))?;
    }
    // By `as`: Rust has no `From` from u64 to usize, and `try_from` brings an error that cannot come.
    for line in [answer.one, answer.two, answer.three]
        .iter()
        .take(answer.count as usize)
    {
        lines.push(*line)?;
    }
    for timer in answer.fired.timers.iter().take(answer.fired.count) {
        lines.push(fired_line(*timer))?;
    }
    Ok(lines)
}

fn are_same(a: &[LineC], b: &[LineC]) -> bool {
    a.len() == b.len() && a.iter().zip(b).all(|(x, y)| is_same(*x, *y))
}

// Whether the code is that of a question, which writes nothing (rule 9.5).
fn is_question(code: u64) -> bool {
    (12..=15).contains(&code)
}

fn refresh(record: &mut ManagerC, set: Bitmap) -> AnswerC {
    let Answered { outcome, manager } = attempt_refresh(manager_of(*record), Some(set));
    *record = flat_record(manager);
    set_answer(outcome)
}

fn answer(record: &mut ManagerC, card: CallC) -> AnswerC {
    if card.code == REFRESH {
        return refresh(record, set_of(card));
    }
    biasflint_call(record, card)
}

/// Makes the call of a card on the record, and answers its lines.
pub fn called_lines(
    alloc: Global,
    record: &mut ManagerC,
    card: CallC,
) -> Result<Vec<LineC>, AllocError> {
    let before = record_lines(alloc, record)?;
    let answer = answer(record, card);
    let after = record_lines(alloc, record)?;
    let mut lines = answer_lines(alloc, &answer)?;
    let writes = answer.refused == 0 && !is_question(card.code);
    if writes || !are_same(before.as_slice(), after.as_slice()) {
        lines.extend_from_slice(after.as_slice())?;
    }
    Ok(lines)
}

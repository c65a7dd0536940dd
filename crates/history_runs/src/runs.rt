// A list of cards, run.

use crate::ends::{End, write_end};
use anyhow::Result;
use call_history::{Call, Passing};
use engine::set_up::new_and_setup;
use flat_record::to_flat::flat_record;
use lease::{LeaseNum, Reading};
use std::alloc::{AllocError, Global};
use std::io::Write;
use wire::answers::{count_answer, set_answer};
use wire::calls::{CallC, drift_setting_of, is_call, lease_notice_of, peer_set_of};
use wire::flat::ManagerC;

/// The code of a set-up card.
pub const SET_UP: u64 = 1;

/// The record of a refused set-up (rule 6.3).
pub fn blank() -> ManagerC {
    flat_record(new_and_setup(0, 0, 0, 0, Reading(0)).manager)
}

// The call of a card (rule 13.2) that is no set-up. Ids are cast: Rust has no `From` between usize and u64.
fn call_of(card: CallC, passing: Passing) -> Call {
    match card.code {
        2 => Call::Advance(passing, Reading(card.number)),
        9 => Call::QuietStart,
        10 => Call::Refresh(peer_set_of(card)),
        11 => Call::Drift(drift_setting_of(card)),
        12 => Call::GrantSet,
        13 => Call::LeaseSet,
        14 => Call::LeaseCnt,
        15 => Call::TimeLeft(card.peer as usize),
        _ => Call::Notice(passing, LeaseNum(card.number), lease_notice_of(card)),
    }
}

// Every other call is by value, the rest over a lent record. A card that is no call changes nothing (refusal 22) and is left out.
fn calls_of(alloc: Global, cards: &[CallC]) -> Result<Vec<Call>, AllocError> {
    let mut calls = Vec::new(alloc);
    for (place, card) in cards.iter().enumerate() {
        let passing = if place % 2 == 0 {
            Passing::ByValue
        } else {
            Passing::Lent
        };
        if is_call(*card) {
            calls.push(call_of(*card, passing))?;
        }
    }
    Ok(calls)
}

// The end by the manager's calls; none where the first card is no set-up, or is refused.
fn end_of_calls(alloc: Global, set_up: CallC, cards: &[CallC]) -> Result<Option<End>, AllocError> {
    if set_up.code != SET_UP {
        return Ok(None);
    }
    let calls = calls_of(alloc, cards)?;
    let ended = call_history::run_from_set_up(
        set_up.peer as usize,
        set_up.size as usize,
        set_up.first,
        set_up.second,
        Reading(set_up.number),
        calls.as_slice(),
    );
    let Ok(ended) = ended else {
        return Ok(None);
    };
    Ok(Some(End {
        record: flat_record(ended.manager),
        grant_set: set_answer(ended.grant_set),
        lease_set: set_answer(ended.lease_set),
        lease_cnt: count_answer(ended.lease_cnt),
        promise_lines: ended.promise_lines,
    }))
}

// The end by the host library; none as above.
fn end_of_cards(record: &mut ManagerC, set_up: CallC, cards: &[CallC]) -> Option<End> {
    let ended = biasflint::history::run_from_set_up(record, set_up, cards)?;
    Some(End {
        record: *record,
        grant_set: ended.grant_set,
        lease_set: ended.lease_set,
        lease_cnt: ended.lease_cnt,
        promise_lines: ended.promise_lines,
    })
}

/// Runs a list both ways, and writes where it ends; the list of no card writes nothing.
pub fn write_runs(
    alloc: Global,
    record: &mut ManagerC,
    cards: &[CallC],
    output: &mut impl Write,
) -> Result<()> {
    let Some((set_up, cards)) = cards.split_first() else {
        return Ok(());
    };
    write_end("calls", end_of_calls(alloc, *set_up, cards)?, output)?;
    write_end("cards", end_of_cards(record, *set_up, cards), output)?;
    Ok(())
}

// The record as lines: 40 has the active number, now, and the quiet deadline or 0; 41, for each id with anything in its row, has the
// tag, the id, the deadline of its sent timer and of its held timer, or 0. The tag is 100 x mark + 10 x held + sent, where
//     sent  0 none; guard 1 unarmed, 2 armed, 3 exploded; promise 8 unarmed, 4 armed, 5 exploded, and revoking 9, 6, 7
//     held  0 none; guard 5 unarmed, 1 armed, 2 exploded; promise 6 unarmed, 3 armed, 4 exploded
// Tags are numbers here, not enums: those of the C record.

use std::alloc::{AllocError, Global};
use wire::calls::CallC;
use wire::flat::{ManagerC, PeerC};
use wire::lines::{LineC, line_c};

// The sent part of a row's tag.
fn sent_tag(p: &PeerC) -> u64 {
    if p.guard_sent > 0 {
        return u64::from(p.guard_sent);
    }
    let revoking = u64::from(p.revoking);
    match p.promise_sent {
        0 => 0,
        1 => 8 + revoking,
        2 => 4 + revoking * 2,
        _ => 5 + revoking * 2,
    }
}

// The held part of a row's tag.
fn held_tag(p: &PeerC) -> u64 {
    match (p.guard_held, p.promise_held) {
        (0, 0) => 0,
        (0, 1) => 6,
        (0, 2) => 3,
        (0, _) => 4,
        (1, _) => 5,
        (2, _) => 1,
        _ => 2,
    }
}

// Line 41 of a row. At most one of a side's two deadlines is not 0. By `as`: Rust has no `From` from usize to u64, and `try_from`
// brings an error that cannot come.
fn row_line(id: usize, p: &PeerC) -> LineC {
    // `%` leaves each part as it is, and lets the check see that their sum fits.
    let tag = u64::from(p.refresh_mark) * 100 + held_tag(p) % 10 * 10 + sent_tag(p) % 10;
    LineC {
        code: 41,
        number: tag,
        peer: id as u64,
        first: p.guard_sent_at.max(p.promise_sent_at),
        second: p.guard_held_at.max(p.promise_held_at),
    }
}

/// The record's lines.
pub fn record_lines(alloc: Global, m: &ManagerC) -> Result<Vec<LineC>, AllocError> {
    let mut lines = Vec::new(alloc);
    lines.push(LineC {
        second: m.quiet_until,
        ..line_c(40, m.active_num, 0, m.now)
    })?;
    for (id, row) in m.peers.iter().enumerate() {
        let line = row_line(id, row);
        if line.number > 0 {
            lines.push(line)?;
        }
    }
    Ok(lines)
}

/// A card of code 40 or 41 asks for that line of the record, 41 for that of the peer's row; a row with nothing in it has none.
pub fn asked_lines(alloc: Global, m: &ManagerC, card: CallC) -> Result<Vec<LineC>, AllocError> {
    let mut lines = record_lines(alloc, m)?;
    lines.retain(|line| line.code == card.code && line.peer == card.peer);
    Ok(lines)
}

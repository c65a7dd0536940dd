// What a list of calls ends with.

use std::io::{self, Write};
use wire::answers::AnswerC;
use wire::flat::{ManagerC, PeerC};

/// The record, what it answers to the questions, and how many Promise lines the answers to the list had.
#[derive(Clone, Copy)]
pub struct End {
    pub record: ManagerC,
    pub grant_set: AnswerC,
    pub lease_set: AnswerC,
    pub lease_cnt: AnswerC,
    pub promise_lines: u64,
}

// Whether a row has an entry or a mark.
fn has_any(row: &PeerC) -> bool {
    let tags = row.guard_sent | row.promise_sent | row.guard_held | row.promise_held;
    (tags | row.refresh_mark) != 0
}

// Tags are those of the C record: 0 none, 1 unarmed, 2 armed, 3 exploded.
fn write_row(id: usize, row: &PeerC, output: &mut impl Write) -> io::Result<()> {
    write!(
        output,
        "    {id}: sent guard {} {}",
        row.guard_sent, row.guard_sent_at
    )?;
    write!(
        output,
        ", promise {} {}",
        row.promise_sent, row.promise_sent_at
    )?;
    write!(
        output,
        ", revoking {}, mark {}",
        row.revoking, row.refresh_mark
    )?;
    write!(
        output,
        "; held guard {} {}",
        row.guard_held, row.guard_held_at
    )?;
    writeln!(
        output,
        ", promise {} {}",
        row.promise_held, row.promise_held_at
    )
}

fn write_record(m: &ManagerC, output: &mut impl Write) -> io::Result<()> {
    writeln!(
        output,
        "    number {}, now {}, quiet until {}",
        m.active_num, m.now, m.quiet_until
    )?;
    for (id, row) in m.peers.iter().enumerate() {
        if has_any(row) {
            write_row(id, row, output)?;
        }
    }
    Ok(())
}

/// Writes the end of a run under its name; none where set-up is refused.
pub fn write_end(name: &str, end: Option<End>, output: &mut impl Write) -> io::Result<()> {
    let Some(end) = end else {
        return writeln!(output, "  {name}: set-up is refused");
    };
    let (grants, leases) = (end.grant_set.one, end.lease_set.one);
    write!(
        output,
        "  {name}: grant set {} of size {}",
        grants.first, grants.peer
    )?;
    write!(
        output,
        ", lease set {} of size {}",
        leases.first, leases.peer
    )?;
    write!(output, ", lease count {}", end.lease_cnt.one.first)?;
    writeln!(output, ", Promise lines {}", end.promise_lines)?;
    write_record(&end.record, output)
}

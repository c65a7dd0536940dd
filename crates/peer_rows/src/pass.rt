// The loops that take a rule of each_row over the rows of a record, the own id's left out: one that
// writes the rows where they stand, and one that only reads them.

ghost use Rattle.std.specs.Prelude.{◌≡◌, ◌≤◌, ◌<◌, ℕ};
ghost use Rattle.lease.specs.Bitmaps.{capacity};
ghost use Rattle.lease.specs.Passes.{pass_over, visit_of};
ghost use Rattle.lease.specs.Rows.{row_at};
ghost use Rattle.peer_rows.specs.Marks.{marks_of, either};

use crate::each_row::{InSets, Look, Rule};
use bitmap::{none, with_id};
use lease::{Bitmap, Peer, ROWS, ReplicaId};

/// What a pass answers beside the rows.
#[derive(Clone, Copy)]
pub struct Marks {
    /// Of a look for what is due: the peers whose sent timers are. Of the other passes: the peers
    /// that were taken.
    pub first: Bitmap,
    /// Of a look for what is due: the peers whose held timers are. Of the other passes: empty.
    pub second: Bitmap,
    /// How many ids the first set has.
    pub count: u64,
}

impl Marks {
    /// Both sets as one, of the larger of their sizes.
    pub fn either(&self) -> Bitmap
        ensures { result ≡ either self.now }
    {
        Bitmap {
            size: self.first.size.max(self.second.size),
            bits: self.first.bits | self.second.bits,
        }
    }
}

/// The rule at the id `i`: the own id's row stays.
pub fn visit_at<R: Rule>(rule: &R, me: ReplicaId, i: usize, row: &mut Peer) -> InSets
    requires { R.fits rule.now row.old }
    ensures row_after { row.new ≡ (visit_of (R.pass rule.now) me i row.old).peer }
    ensures first { result.first ≡ (visit_of (R.pass rule.now) me i row.old).first }
    ensures second { result.second ≡ (visit_of (R.pass rule.now) me i row.old).second }
{
    if i == me {
        return InSets::NONE;
    }
    rule.visit(i, row)
}

/// One pass over the ids below `n`: the rule is taken to their rows, but not to the own id's; the
/// other rows stay.
pub fn pass_over<R: Rule>(rows: &mut [Peer; ROWS], me: ReplicaId, n: usize, rule: &R) -> Marks
    requires n_le_capacity { n ≤ capacity }
    requires rows_fit { (i : ℕ) → i < n → R.fits rule.now (row_at rows.old i) }
    ensures rows_after { rows.new ≡ (pass_over (R.pass rule.now) me n rows.old).peers }
    ensures marks { result ≡ marks_of (pass_over (R.pass rule.now) me n rows.old) }
{
    // At most the capacity, so the cast loses nothing.
    let mut first = none(n as u8);
    let mut second = none(n as u8);
    let mut count: u64 = 0;
    for (i, row) in rows[..n].iter_mut().enumerate() {
        let sets = visit_at(rule, me, i, row);
        first = with_id(first, sets.first, i);
        second = with_id(second, sets.second, i);
        count += u64::from(sets.first);
    }
    Marks {
        first,
        second,
        count,
    }
}

/// The rule at the id `i`: the own id is in no set.
pub fn look_at<L: Look>(rule: &L, me: ReplicaId, i: usize, row: &Peer) -> InSets
    ensures first { result.first ≡ (visit_of (L.pass rule.now) me i row.now).first }
    ensures second { result.second ≡ (visit_of (L.pass rule.now) me i row.now).second }
{
    if i == me {
        return InSets::NONE;
    }
    rule.look(i, row)
}

/// The sets of a pass over the ids below `n` that leaves the rows as they are.
pub fn sets_over<L: Look>(rows: &[Peer; ROWS], me: ReplicaId, n: usize, rule: &L) -> Marks
    requires { n ≤ capacity }
    ensures marks { result ≡ marks_of (pass_over (L.pass rule.now) me n rows.now) }
    ensures few { result.count ≤ n }
{
    let mut first = none(n as u8);
    let mut second = none(n as u8);
    let mut count: u64 = 0;
    for (i, row) in rows[..n].iter().enumerate() {
        let sets = look_at(rule, me, i, row);
        first = with_id(first, sets.first, i);
        second = with_id(second, sets.second, i);
        count += u64::from(sets.first);
    }
    Marks {
        first,
        second,
        count,
    }
}

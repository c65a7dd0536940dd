// The loops over flat rows: each row is read as a manager's, the rule is taken to it, and where it may have changed it is written back.

ghost use Rattle.std.specs.Prelude.{◌≡◌, ◌≤◌, ◌<◌, ℕ, true, map};
ghost use Rattle.std.specs.List.{list_all};
ghost use Rattle.lease.specs.Bitmaps.{capacity};
ghost use Rattle.lease.specs.Passes.{pass_over, visit_of};
ghost use Rattle.lease.specs.Rows.{row_at};
ghost use Rattle.peer_rows.specs.Fits.{AnyRow};
ghost use Rattle.peer_rows.specs.Marks.{marks_of};
ghost use Rattle.wire.specs.Flat.{flat_row};
ghost use Rattle.wire.specs.FromFlat.{peer_of};
ghost use Rattle.wire.specs.Form.{is_row};
ghost use Rattle.flat_engine.specs.FlatRows.{higher_number_pass};

use bitmap::{none, with_id};
use flat_record::from_flat::peer_of;
use flat_record::to_flat::flat_row;
use lease::{Peer, ROWS, ReplicaId};
use peer_rows::each_row::{InSets, Look, Rule};
use peer_rows::entries::{drop_held, drop_sent};
use peer_rows::pass::{Marks, look_at, visit_at};
use wire::flat::PeerC;

/// A higher number (rule 7.2), as a rule for `flat_pass_over`: all four entries go, the mark stays. That pass leaves the own id's row, which
/// `clearing::flat_clear_below` clears as any other.
#[derive(Clone, Copy)]
pub struct HigherNumber;

impl Rule for HigherNumber {
    ghost pass = { λ r. higher_number_pass };

    ghost fits = { λ r. AnyRow };

    fn visit(&self, i: usize, row: &mut Peer) -> InSets {
        drop_sent(row);
        drop_held(row);
        InSets::NONE
    }
}

// The rule at the id i: the own id's row stays.
fn visit_flat<R: Rule>(rule: &R, me: ReplicaId, i: usize, p: &mut PeerC) -> InSets
    requires { R.fits rule.now (peer_of p.old) }
    ensures row_after { p.new ≡ flat_row (visit_of (R.pass rule.now) me i (peer_of p.old)).peer }
    ensures first { result.first ≡ (visit_of (R.pass rule.now) me i (peer_of p.old)).first }
    ensures second { result.second ≡ (visit_of (R.pass rule.now) me i (peer_of p.old)).second }
{
    let mut row = peer_of(*p);
    let sets = visit_at(rule, me, i, &mut row);
    *p = flat_row(row);
    sets
}

/// One pass over the ids below `n`, on flat rows of the form: the rule is taken to their rows, but not to the own id's; the other rows stay.
pub fn flat_pass_over<R: Rule>(rows: &mut [PeerC; ROWS], me: ReplicaId, n: usize, rule: &R) -> Marks
    requires n_le_capacity { n ≤ capacity }
    requires rows_fit { (i : ℕ) → i < n → R.fits rule.now (row_at (map peer_of rows.old) i) }
    requires form { list_all is_row rows.old ≡ true }
    ensures rows_after { rows.new ≡ map flat_row (pass_over (R.pass rule.now) me n (map peer_of rows.old)).peers }
    ensures marks { result ≡ marks_of (pass_over (R.pass rule.now) me n (map peer_of rows.old)) }
{
    // At most the capacity, so the cast loses nothing.
    let mut first = none(n as u8);
    let mut second = none(n as u8);
    let mut count: u64 = 0;
    for (i, p) in rows[..n].iter_mut().enumerate() {
        let sets = visit_flat(rule, me, i, p);
        first = with_id(first, sets.first, i);
        second = with_id(second, sets.second, i);
        count += u64::from(sets.first);
    }
    Marks {
        first,
        second,
        count,
    }
}

// What the rule says at the id i: the own id is in no set.
fn look_flat<L: Look>(rule: &L, me: ReplicaId, i: usize, p: &PeerC) -> InSets
    ensures first { result.first ≡ (visit_of (L.pass rule.now) me i (peer_of p.now)).first }
    ensures second { result.second ≡ (visit_of (L.pass rule.now) me i (peer_of p.now)).second }
{
    let row = peer_of(*p);
    look_at(rule, me, i, &row)
}

/// The sets of a pass over the ids below `n` that leaves the flat rows as they are.
pub fn flat_sets_over<L: Look>(rows: &[PeerC; ROWS], me: ReplicaId, n: usize, rule: &L) -> Marks
    requires { n ≤ capacity }
    ensures marks { result ≡ marks_of (pass_over (L.pass rule.now) me n (map peer_of rows.now)) }
    ensures few { result.count ≤ n }
{
    let mut first = none(n as u8);
    let mut second = none(n as u8);
    let mut count: u64 = 0;
    for (i, p) in rows[..n].iter().enumerate() {
        let sets = look_flat(rule, me, i, p);
        first = with_id(first, sets.first, i);
        second = with_id(second, sets.second, i);
        count += u64::from(sets.first);
    }
    Marks {
        first,
        second,
        count,
    }
}

#[cfg(test)]
mod tests {
    use super::*;

    // An entry in every table, and a mark.
    const FULL: PeerC = PeerC {
        guard_sent: 1,
        promise_sent: 2,
        guard_held: 2,
        promise_held: 3,
        revoking: 1,
        refresh_mark: 1,
        guard_sent_at: 0,
        promise_sent_at: 7,
        guard_held_at: 8,
        promise_held_at: 0,
    };

    #[test]
    fn higher_number_empties_the_tables(rt: HostRuntime) {
        let mut row = peer_of(FULL);
        let sets = HigherNumber.visit(2, &mut row);
        assert!(rt; row.guard_sent.is_none());
        assert!(rt; row.promise_sent.is_none());
        assert!(rt; row.guard_held.is_none());
        assert!(rt; row.promise_held.is_none());
        assert!(rt; row.refresh_mark);
        assert!(rt; !sets.first);
        assert!(rt; !sets.second);
    }

    #[test]
    fn higher_number_leaves_the_own_row(rt: HostRuntime) {
        let mut rows = [FULL; ROWS];
        let sets = flat_pass_over(&mut rows, 1, 3, &HigherNumber);
        for i in [0, 2] {
            assert_eq!(rt; rows[i].guard_sent, 0);
            assert_eq!(rt; rows[i].promise_held, 0);
            assert_eq!(rt; rows[i].refresh_mark, 1);
        }
        for i in [1, 3, 63] {
            assert_eq!(rt; rows[i].guard_sent, 1);
            assert_eq!(rt; rows[i].promise_held, 3);
        }
        assert_eq!(rt; sets.count, 0);
    }
}

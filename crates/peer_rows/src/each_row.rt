// The rules about many peers, each on one peer's row: what it writes there, or only reads, and
// whether the row's id is in the pass's sets. `pass` takes them over the rows. (A higher number's
// pass stands in clearing.)

ghost use Rattle.std.specs.Prelude.{◌≡◌, false};
ghost use Rattle.lease.specs.declared.Peer.{Peer};
ghost use Rattle.lease.specs.Pass.{Pass};
ghost use Rattle.lease.specs.Passes.{named, pass_row, fires_entry};
ghost use Rattle.peer_rows.specs.Fits.{AnyRow, Refreshable};
ghost use Rattle.peer_rows.specs.Rules.{new_grants_pass, do_revoke_pass, clear_held_pass, advance_pass, refresh_pass, granted_pass, everyone_pass, leased_pass};

use crate::entries::{drop_held, is_active, promise_timer};
use bitmap::is_one;
use lease::{Bitmap, Peer, Reading, Timer};
use timer::extend;
use timer::read::exploded;

/// Whether a row's id is in a pass's first set, and in its second.
#[derive(Clone, Copy)]
pub struct InSets {
    pub first: bool,
    pub second: bool,
}

impl InSets {
    /// In neither set.
    pub const NONE: InSets = InSets {
        first: false,
        second: false,
    };

    // In the first set if `is` holds, and not in the second.
    fn first_if(is: bool) -> InSets
        ensures first { result.first ≡ is }
        ensures second { result.second ≡ false }
    {
        InSets {
            first: is,
            second: false,
        }
    }
}

/// Whether the set has the id; no set names every id.
pub fn is_named(set: Option<Bitmap>, i: usize) -> bool
    ensures { result ≡ named set i }
{
    set.is_none_or(|ids| is_one(ids, i))
}

// ---- rules that write

/// A rule that may write each peer's row.
pub trait Rule {
    ghost pass: { Self → Pass };

    ghost fits: { Self → Peer → Type 0 };

    /// The rule on the row of the peer `i`: only the fields that change are written.
    fn visit(&self, i: usize, row: &mut Peer) -> InSets
        requires { fits self.now row.old }
        ensures row_after { row.new ≡ (pass_row (pass self.now) i row.old).peer }
        ensures first { result.first ≡ (pass_row (pass self.now) i row.old).first }
        ensures second { result.second ≡ (pass_row (pass self.now) i row.old).second };
}

/// NewGrants (rule 7.4): a named peer without a promise sent gets a fresh sent guard, unarmed.
#[derive(Clone, Copy)]
pub struct NewGrants {
    pub set: Option<Bitmap>,
}

impl Rule for NewGrants {
    ghost pass = { λ r. new_grants_pass r.set };

    ghost fits = { λ r. AnyRow };

    fn visit(&self, i: usize, row: &mut Peer) -> InSets {
        let guarded = is_named(self.set, i) && row.promise_sent.is_none();
        if guarded {
            row.guard_sent = Some(Timer::Unarmed);
        }
        InSets::first_if(guarded)
    }
}

/// DoRevoke (rule 7.5): a named peer's sent guard is dropped, and its sent promise marked as
/// revoking.
#[derive(Clone, Copy)]
pub struct DoRevoke {
    pub set: Option<Bitmap>,
}

impl Rule for DoRevoke {
    ghost pass = { λ r. do_revoke_pass r.set };

    ghost fits = { λ r. AnyRow };

    fn visit(&self, i: usize, row: &mut Peer) -> InSets {
        if !is_named(self.set, i) {
            return InSets::NONE;
        }
        row.guard_sent = None;
        let Some((timer, _)) = row.promise_sent else {
            return InSets::NONE;
        };
        row.promise_sent = Some((timer, true));
        InSets::first_if(true)
    }
}

/// ClearHeld (rule 7.6): both held tables are emptied.
#[derive(Clone, Copy)]
pub struct ClearHeld;

impl Rule for ClearHeld {
    ghost pass = { λ r. clear_held_pass };

    ghost fits = { λ r. AnyRow };

    fn visit(&self, i: usize, row: &mut Peer) -> InSets {
        drop_held(row);
        InSets::NONE
    }
}

/// `attempt_refresh` (rule 8.5): a named, marked peer with a sent promise loses its mark; the
/// promise is extended by `by` ns, T as the clock has it, unless it is revoking or exploded.
#[derive(Clone, Copy)]
pub struct Refresh {
    pub set: Option<Bitmap>,
    pub now: Reading,
    pub by: u64,
}

impl Rule for Refresh {
    ghost pass = { λ r. refresh_pass r.set r.now r.by };

    ghost fits = { λ r. Refreshable r.now r.by };

    fn visit(&self, i: usize, row: &mut Peer) -> InSets {
        let Some((timer, revoking)) = row.promise_sent else {
            return InSets::NONE;
        };
        if !row.refresh_mark || !is_named(self.set, i) {
            return InSets::NONE;
        }
        row.refresh_mark = false;
        if revoking || exploded(timer) {
            return InSets::NONE;
        }
        row.promise_sent = Some((extend(self.now, self.by, timer), false));
        InSets::first_if(true)
    }
}

// ---- rules that only read

/// A rule that asks of each peer's row whether its id is in the pass's sets.
pub trait Look {
    ghost pass: { Self → Pass };

    /// The rule on the row of the peer `i`.
    fn look(&self, i: usize, row: &Peer) -> InSets
        ensures first { result.first ≡ (pass_row (pass self.now) i row.now).first }
        ensures second { result.second ≡ (pass_row (pass self.now) i row.now).second };
}

// Whether the entry's timer fires at the reading: it is armed, and its deadline is reached (rule
// 4.5).
fn is_due(to: Reading, entry: Option<Timer>) -> bool
    ensures { result ≡ fires_entry to entry }
{
    matches!(entry, Some(Timer::Armed(deadline)) if deadline <= to)
}

/// Which sides of a row have a timer that an advance to the reading explodes (rule 8.2).
#[derive(Clone, Copy)]
pub struct Due {
    pub to: Reading,
}

impl Look for Due {
    ghost pass = { λ r. advance_pass r.to };

    fn look(&self, i: usize, row: &Peer) -> InSets {
        let promise = promise_timer(row.promise_sent);
        InSets {
            first: is_due(self.to, row.guard_sent) | is_due(self.to, promise),
            second: is_due(self.to, row.guard_held) | is_due(self.to, row.promise_held),
        }
    }
}

/// `grant_set` outside quiet time (rule 9.1): whether the peer has a promise sent, revoking or
/// exploded ones included.
#[derive(Clone, Copy)]
pub struct Granted;

impl Look for Granted {
    ghost pass = { λ r. granted_pass };

    fn look(&self, i: usize, row: &Peer) -> InSets {
        InSets::first_if(row.promise_sent.is_some())
    }
}

/// `grant_set` in quiet time (rule 9.1): every peer.
#[derive(Clone, Copy)]
pub struct Everyone;

impl Look for Everyone {
    ghost pass = { λ r. everyone_pass };

    fn look(&self, i: usize, row: &Peer) -> InSets {
        InSets::first_if(true)
    }
}

/// `lease_set` (rule 9.2): whether the promise held from the peer is active.
#[derive(Clone, Copy)]
pub struct Leased {
    pub now: Reading,
}

impl Look for Leased {
    ghost pass = { λ r. leased_pass r.now };

    fn look(&self, i: usize, row: &Peer) -> InSets {
        InSets::first_if(is_active(self.now, row.promise_held))
    }
}

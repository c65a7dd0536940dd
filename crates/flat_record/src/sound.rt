// Which flat records a call works on: those of the form (rule 13.1) that stand for a record which the record check passes (rule 5.3). Each row is
// looked at once, where it stands.

ghost use Rattle.std.specs.Prelude.{true, T, ◌≡◌, ◌&&◌, cond, map, not, ltb, eqb};
ghost use Rattle.std.specs.Float.{binary64};
ghost use Rattle.std.specs.Float.Ieee.{fits};
ghost use Rattle.std.specs.List.{list_all};
ghost use Rattle.lease.specs.Bitmaps.{capacity};
ghost use Rattle.lease.specs.Clocks.{is_settable};
ghost use Rattle.lease.specs.RecordCheck.{entry_valid, grant_valid, quiet_valid, row_valid, row_empty, rows_valid, limits_valid, record_valid};
ghost use Rattle.lease.specs.Rows.{present, granted};
ghost use Rattle.wire.specs.Form.{is_entry, is_flag, is_grant, is_row, is_clock_pair, is_quiet_pair, is_record};
ghost use Rattle.wire.specs.Flat.{flat_of};
ghost use Rattle.wire.specs.FromFlat.{entry_by_tag, grant_by_tag, peer_of, clock_by_flag, quiet_timer_by_flag, manager_of};
ghost use Rattle.flat_record.specs.Sound.{reading, sent_blank, held_blank, sent_sound, held_sound, sound_at};

use drift::clocks::is_quotient;
use lease::Reading;
use refusals::entries::is_valid_deadline;
use refusals::limits::{is_valid_own, is_valid_population, is_valid_reading, is_valid_timeout};
use wire::flat::{ManagerC, PeerC};

// ---- a blank row: all its numbers are 0

fn is_absent(tag: u8, at: u64) -> bool
    ensures { result ≡ (is_entry tag at && not (present (entry_by_tag tag at))) }
{
    (tag == 0) & (at == 0)
}

fn is_no_grant(tag: u8, at: u64, revoking: u8) -> bool
    ensures { result ≡ (is_grant tag at revoking && not (granted (grant_by_tag tag at revoking))) }
{
    (tag == 0) & (at == 0) & (revoking == 0)
}

fn are_blank_sent(p: &PeerC) -> bool
    ensures { result ≡ sent_blank p.now }
{
    is_absent(p.guard_sent, p.guard_sent_at)
        && is_no_grant(p.promise_sent, p.promise_sent_at, p.revoking)
}

fn are_blank_held(p: &PeerC) -> bool
    ensures { result ≡ held_blank p.now }
{
    is_absent(p.guard_held, p.guard_held_at) && is_absent(p.promise_held, p.promise_held_at)
}

fn are_blank_sides(p: &PeerC) -> bool
    ensures { result ≡ (sent_blank p.now && held_blank p.now) }
{
    are_blank_sent(p) && are_blank_held(p)
}

fn is_blank(p: &PeerC) -> bool
    ensures { result ≡ (is_row p.now && row_empty (peer_of p.now)) }
{
    are_blank_sides(p) && p.refresh_mark == 0
}

// ---- a peer's row

fn is_sound_entry(now: u64, tag: u8, at: u64) -> bool
    ensures { result ≡ (is_entry tag at && entry_valid (reading now) (entry_by_tag tag at)) }
{
    if tag == 2 {
        is_valid_deadline(Reading(now), Reading(at))
    } else {
        ((tag == 0) | (tag == 3)) & (at == 0)
    }
}

fn is_sound_grant(now: u64, tag: u8, at: u64, revoking: u8) -> bool
    ensures { result ≡ (is_grant tag at revoking && grant_valid (reading now) (grant_by_tag tag at revoking)) }
{
    match tag {
        2 => (revoking < 2) & is_valid_deadline(Reading(now), Reading(at)),
        0 => (at == 0) & (revoking == 0),
        _ => (tag == 3) & (at == 0) & (revoking < 2),
    }
}

// The sent tables: a guard, which is unarmed, or a promise, or neither.
fn is_sound_sent(now: u64, p: &PeerC) -> bool
    ensures { result ≡ sent_sound now p.now }
{
    if p.guard_sent == 0 {
        p.guard_sent_at == 0 && is_sound_grant(now, p.promise_sent, p.promise_sent_at, p.revoking)
    } else {
        (p.guard_sent == 1)
            & (p.guard_sent_at == 0)
            & is_no_grant(p.promise_sent, p.promise_sent_at, p.revoking)
    }
}

// The held tables: a guard or a promise, or neither.
fn is_sound_held(now: u64, p: &PeerC) -> bool
    ensures { result ≡ held_sound now p.now }
{
    if p.guard_held == 0 {
        p.guard_held_at == 0 && is_sound_entry(now, p.promise_held, p.promise_held_at)
    } else {
        is_absent(p.promise_held, p.promise_held_at)
            && is_sound_entry(now, p.guard_held, p.guard_held_at)
    }
}

fn is_sound_peer(now: u64, p: &PeerC) -> bool
    ensures { result ≡ (is_row p.now && row_valid (reading now) (peer_of p.now)) }
{
    let sent = is_sound_sent(now, p);
    sent && ((p.refresh_mark < 2) & is_sound_held(now, p))
}

// ---- the rows

// The row of the id i: a blank one, wherever it stands, or a peer's.
fn is_sound_at(f: &ManagerC, i: usize, p: &PeerC) -> bool
    ensures { result ≡ sound_at f.entry.now i p.now }
{
    let of_peer = (i < f.population) & (i != f.me);
    is_blank(p) || (of_peer && is_sound_peer(f.now, p))
}

fn are_sound_rows(f: &ManagerC) -> bool
    ensures { result ≡ (list_all is_row f.entry.now.peers && rows_valid f.entry.now.me f.entry.now.population (reading f.entry.now.now) (map peer_of f.entry.now.peers) capacity) }
{
    f.peers
        .iter()
        .enumerate()
        .all(|(i, p)| is_sound_at(f, i, p))
}

// ---- the rest of the record

#[tactic(auto, unfolding(lease::specs::RecordCheck::limits_valid, wire::specs::FromFlat::manager_of))]
fn are_valid_limits(f: &ManagerC) -> bool
    ensures { result ≡ limits_valid (manager_of f.entry.now) }
{
    is_valid_timeout(f.expire_timeout)
        && is_valid_population(f.population)
        && is_valid_own(f.me, f.population)
        && is_valid_reading(Reading(f.now))
}

// A flag, and beside a true clock the quotient 1.0; else a quotient that some drift setting gives.
fn is_sound_clock(drifting: u8, q: f64) -> bool
    ensures sound { result ≡ (is_clock_pair drifting q && is_settable (clock_by_flag drifting q)) }

    // As its type has it, for the callers that know it behind a reference.
    ensures f64 { T (fits binary64 q) }
{
    if drifting == 0 {
        q == 1.0
    } else {
        drifting == 1 && is_quotient(q)
    }
}

// A flag, and outside quiet time no end.
fn is_sound_quiet(now: u64, quiet: u8, at: u64) -> bool
    ensures { result ≡ (is_quiet_pair quiet at && quiet_valid (reading now) (quiet_timer_by_flag quiet at)) }
{
    if quiet == 0 {
        at == 0
    } else {
        quiet == 1 && is_valid_deadline(Reading(now), Reading(at))
    }
}

/// Whether a flat record is some manager's, of the form (rule 13.1) and passed by the record check (rule 5.3); else every call but set-up is
/// refused with 15 (rules 10.15, 13.5).
pub fn is_sound(f: &ManagerC) -> bool
    ensures sound { result ≡ (is_record f.entry.now && record_valid (manager_of f.entry.now)) }

    // It is then written of the record that it is read as.
    ensures same { result ≡ true → flat_of (manager_of f.entry.now) ≡ f.entry.now }
{
    let head = is_sound_clock(f.drifting, f.quotient)
        & is_sound_quiet(f.now, f.quiet, f.quiet_until);
    let limited = head & are_valid_limits(f);
    limited && are_sound_rows(f)
}

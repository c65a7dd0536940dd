// Which flat records are some manager's: each tag and flag has one of its values, and what they leave out is 0 (rule 13.1). Every contract
// says that the result equals a definition of wire/specs/Form.

ghost use Rattle.std.specs.Prelude.{◌≡◌};
ghost use Rattle.std.specs.List.{list_all};
ghost use Rattle.wire.specs.Form.{is_entry, is_revoking_flag, is_grant, is_row, is_clock_pair, is_quiet_pair, is_record};

use lease::ROWS;
use wire::calls::is_flag;
use wire::flat::{ManagerC, PeerC};

// A tag of 0 to 3, and a deadline only where the timer is armed.
fn is_entry(tag: u8, at: u64) -> bool
    ensures { result ≡ is_entry tag at }
{
    match tag {
        2 => true,
        0 | 1 | 3 => at == 0,
        _ => false,
    }
}

// A flag, which is 0 where there is no promise.
fn is_revoking_flag(tag: u8, revoking: u8) -> bool
    ensures { result ≡ is_revoking_flag tag revoking }
{
    if tag == 0 {
        revoking == 0
    } else {
        is_flag(u64::from(revoking))
    }
}

fn is_grant(tag: u8, at: u64, revoking: u8) -> bool
    ensures { result ≡ is_grant tag at revoking }
{
    is_revoking_flag(tag, revoking) && is_entry(tag, at)
}

#[tactic(auto, unfolding(wire::specs::Form::is_row))]
fn is_row(p: &PeerC) -> bool
    ensures { result ≡ is_row p.now }
{
    let sent = is_entry(p.guard_sent, p.guard_sent_at)
        && is_grant(p.promise_sent, p.promise_sent_at, p.revoking);
    let held = is_entry(p.guard_held, p.guard_held_at)
        && is_entry(p.promise_held, p.promise_held_at);
    sent && held && is_flag(u64::from(p.refresh_mark))
}

fn are_rows(peers: &[PeerC; ROWS]) -> bool
    ensures { result ≡ list_all is_row peers.now }
{
    peers.iter().all(is_row)
}

// A flag, and beside a true clock the quotient 1.0.
fn is_clock_pair(drifting: u8, q: f64) -> bool
    ensures { result ≡ is_clock_pair drifting q }
{
    if drifting == 0 {
        q == 1.0
    } else {
        is_flag(u64::from(drifting))
    }
}

// A flag, and outside quiet time no end.
fn is_quiet_pair(quiet: u8, at: u64) -> bool
    ensures { result ≡ is_quiet_pair quiet at }
{
    if quiet == 0 {
        at == 0
    } else {
        is_flag(u64::from(quiet))
    }
}

/// Whether a flat record is some manager's; else every call but set-up is refused with 15 (rules 5.3, 13.5). It says nothing of the limits
/// that a manager's own record check looks at.
#[tactic(auto, unfolding(wire::specs::Form::is_record))]
pub fn is_record(f: ManagerC) -> bool
    ensures { result ≡ is_record f }
{
    is_clock_pair(f.drifting, f.quotient)
        && is_quiet_pair(f.quiet, f.quiet_until)
        && are_rows(&f.peers)
}

// A flat record read as a manager's (rule 13.1). Every contract says that the result equals a definition of wire/specs/FromFlat.

ghost use Rattle.std.specs.Prelude.{◌≡◌, map};
ghost use Rattle.wire.specs.FromFlat.{timer_by_tag, entry_by_tag, grant_by_tag, peer_of, clock_by_flag, quiet_timer_by_flag, manager_of};

use lease::{Clock, LeaseNum, Manager, Peer, ROWS, Reading, Timer};
use wire::flat::{ManagerC, PeerC};

// A tag and its deadline stand side by side, as in the record that crosses to C.
fn timer_by_tag(tag: u8, at: u64) -> Timer
    ensures { result ≡ timer_by_tag tag at }
{
    match tag {
        1 => Timer::Unarmed,
        2 => Timer::Armed(Reading(at)),
        _ => Timer::Exploded,
    }
}

fn entry_by_tag(tag: u8, at: u64) -> Option<Timer>
    ensures { result ≡ entry_by_tag tag at }
{
    (tag != 0).then(|| timer_by_tag(tag, at))
}

fn grant_by_tag(tag: u8, at: u64, revoking: u8) -> Option<(Timer, bool)>
    ensures { result ≡ grant_by_tag tag at revoking }
{
    entry_by_tag(tag, at).map(|t| (t, revoking == 1))
}

/// The row that a flat one stands for.
#[tactic(auto, unfolding(wire::specs::FromFlat::peer_of))]
pub fn peer_of(p: PeerC) -> Peer
    ensures { result ≡ peer_of p }
{
    Peer {
        guard_sent: entry_by_tag(p.guard_sent, p.guard_sent_at),
        promise_sent: grant_by_tag(p.promise_sent, p.promise_sent_at, p.revoking),
        guard_held: entry_by_tag(p.guard_held, p.guard_held_at),
        promise_held: entry_by_tag(p.promise_held, p.promise_held_at),
        refresh_mark: p.refresh_mark == 1,
    }
}

fn peers_of(peers: [PeerC; ROWS]) -> [Peer; ROWS]
    ensures { result ≡ map peer_of peers }
{
    peers.map(peer_of)
}

/// The clock; `q` counts only where it drifts.
pub fn clock_by_flag(drifting: u8, q: f64) -> Clock
    ensures { result ≡ clock_by_flag drifting q }
{
    if drifting == 0 {
        Clock::True
    } else {
        Clock::Drifting(q)
    }
}

/// The quiet timer; `at`, in ns, counts only in quiet time.
pub fn quiet_timer_by_flag(quiet: u8, at: u64) -> Option<Reading>
    ensures { result ≡ quiet_timer_by_flag quiet at }
{
    (quiet != 0).then_some(Reading(at))
}

/// The manager's record that a flat record stands for. A number that stands for nothing is read as the last case: a caller asks
/// `form::is_record` first.
#[tactic(auto, unfolding(wire::specs::FromFlat::manager_of))]
pub fn manager_of(f: ManagerC) -> Manager
    ensures { result ≡ manager_of f }
{
    Manager {
        me: f.me,
        population: f.population,
        expire_timeout: f.expire_timeout,
        now: Reading(f.now),
        active_num: LeaseNum(f.active_num),
        clock: clock_by_flag(f.drifting, f.quotient),
        quiet_timer: quiet_timer_by_flag(f.quiet, f.quiet_until),
        peers: peers_of(f.peers),
    }
}

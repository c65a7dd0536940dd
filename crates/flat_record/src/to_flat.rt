// A manager's record as the flat record that crosses to the host (rule 13.1). Every contract says that the result equals a definition of
// wire/specs/Flat.

ghost use Rattle.std.specs.Prelude.{◌≡◌, map};
ghost use Rattle.wire.specs.Flat.{timer_tag, timer_at, entry_tag, entry_at, grant_tag, grant_at, grant_revoking, flag, flat_row, clock_drifting, clock_quotient, quiet_flag, quiet_until_of, flat_of};

use lease::{Clock, Manager, Peer, ROWS, Reading, Timer};
use wire::flat::{ManagerC, PeerC};

// 1 unarmed, 2 armed, 3 exploded.
fn timer_tag(t: Timer) -> u8
    ensures { result ≡ timer_tag t }
{
    match t {
        Timer::Unarmed => 1,
        Timer::Armed(_) => 2,
        Timer::Exploded => 3,
    }
}

// 0 where it is not armed.
fn timer_at(t: Timer) -> u64
    ensures { result ≡ timer_at t }
{
    match t {
        Timer::Armed(deadline) => deadline.0,
        Timer::Unarmed | Timer::Exploded => 0,
    }
}

fn entry_tag(e: Option<Timer>) -> u8
    ensures { result ≡ entry_tag e }
{
    e.map_or(0, timer_tag)
}

fn entry_at(e: Option<Timer>) -> u64
    ensures { result ≡ entry_at e }
{
    e.map_or(0, timer_at)
}

fn grant_tag(g: Option<(Timer, bool)>) -> u8
    ensures { result ≡ grant_tag g }
{
    entry_tag(g.map(|(t, _)| t))
}

fn grant_at(g: Option<(Timer, bool)>) -> u64
    ensures { result ≡ grant_at g }
{
    entry_at(g.map(|(t, _)| t))
}

fn grant_revoking(g: Option<(Timer, bool)>) -> u8
    ensures { result ≡ grant_revoking g }
{
    g.map_or(0, |(_, revoking)| u8::from(revoking))
}

/// A row as numbers.
#[tactic(auto, unfolding(wire::specs::Flat::flat_row))]
pub fn flat_row(row: Peer) -> PeerC
    ensures { result ≡ flat_row row }
{
    PeerC {
        guard_sent: entry_tag(row.guard_sent),
        promise_sent: grant_tag(row.promise_sent),
        guard_held: entry_tag(row.guard_held),
        promise_held: entry_tag(row.promise_held),
        revoking: grant_revoking(row.promise_sent),
        refresh_mark: u8::from(row.refresh_mark),
        guard_sent_at: entry_at(row.guard_sent),
        promise_sent_at: grant_at(row.promise_sent),
        guard_held_at: entry_at(row.guard_held),
        promise_held_at: entry_at(row.promise_held),
    }
}

fn flat_rows(peers: [Peer; ROWS]) -> [PeerC; ROWS]
    ensures { result ≡ map flat_row peers }
{
    peers.map(flat_row)
}

/// 1 where the clock drifts.
pub fn clock_drifting(clock: Clock) -> u8
    ensures { result ≡ clock_drifting clock }
{
    u8::from(matches!(clock, Clock::Drifting(_)))
}

/// 1.0 of a true clock.
pub fn clock_quotient(clock: Clock) -> f64
    ensures { result ≡ clock_quotient clock }
{
    match clock {
        Clock::True => 1.0,
        Clock::Drifting(q) => q,
    }
}

/// 1 in quiet time.
pub fn quiet_flag(t: Option<Reading>) -> u8
    ensures { result ≡ quiet_flag t }
{
    u8::from(t.is_some())
}

/// The end of quiet time in ns; 0 outside it.
pub fn quiet_until_of(t: Option<Reading>) -> u64
    ensures { result ≡ quiet_until_of t }
{
    t.map_or(0, |deadline| deadline.0)
}

/// The flat record of a manager's record. It is of the form, and read back as the same record.
#[tactic(auto, unfolding(wire::specs::Flat::flat_of))]
pub fn flat_record(m: Manager) -> ManagerC
    ensures { result ≡ flat_of m }
{
    ManagerC {
        me: m.me,
        population: m.population,
        expire_timeout: m.expire_timeout,
        now: m.now.0,
        active_num: m.active_num.0,
        quotient: clock_quotient(m.clock),
        quiet_until: quiet_until_of(m.quiet_timer),
        drifting: clock_drifting(m.clock),
        quiet: quiet_flag(m.quiet_timer),
        peers: flat_rows(m.peers),
    }
}

// Set-up: the Rust's `new_and_setup` (rules 6.1 to 6.3).

ghost use Rattle.std.specs.Prelude.{◌≡◌, ◌*◌, leb};
ghost use Rattle.lease.specs.SetUp.{setup_refusal, fresh, setup_of};
ghost use Rattle.lease.specs.Numbers.{number_of, setup_number};

use lease::{Answered, Clock, LeaseNum, Manager, Peer, ROWS, Reading, Refusal, ReplicaId};
use refusals::limits::{is_valid_own, is_valid_population, is_valid_reading, is_valid_timeout};

// Whether twice the heartbeat is not below T; a product over 64 bits is above every T.
fn is_slow(t: u64, heartbeat: u64) -> bool
    ensures { result ≡ leb t (2 * heartbeat) }
{
    t <= heartbeat.saturating_mul(2)
}

/// Set-up's refusals 1 to 5 in this order (rules 10.1 to 10.5, 10.30); `t` and `heartbeat` in ns.
pub fn check_set_up(
    me: ReplicaId,
    n: usize,
    t: u64,
    heartbeat: u64,
    now: Reading,
) -> Result<(), Refusal>
    ensures { result ≡ setup_refusal me n t heartbeat now }
{
    if !is_valid_timeout(t) {
        return Err(Refusal::TimeoutOutOfRange);
    }
    if is_slow(t, heartbeat) {
        return Err(Refusal::HeartbeatTooSlow);
    }
    if !is_valid_population(n) {
        return Err(Refusal::PopulationOutOfRange);
    }
    if !is_valid_own(me, n) {
        return Err(Refusal::OwnNotBelowPopulation);
    }
    if !is_valid_reading(now) {
        return Err(Refusal::ReadingTooHigh);
    }
    Ok(())
}

/// What set-up starts with (rule 6.2): number 0, all four tables and the marks empty, outside quiet
/// time, a true clock.
#[tactic(auto, unfolding(lease::specs::SetUp::fresh))]
pub fn fresh_manager(me: ReplicaId, n: usize, t: u64, now: Reading) -> Manager
    ensures { result ≡ fresh me n t now }
{
    let empty = Peer {
        guard_sent: None,
        promise_sent: None,
        guard_held: None,
        promise_held: None,
        refresh_mark: false,
    };
    Manager {
        me,
        population: n,
        expire_timeout: t,
        now,
        active_num: LeaseNum(0),
        clock: Clock::True,
        quiet_timer: None,
        peers: [empty; ROWS],
    }
}

/// A manager of own id `me` among `n` controllers, with T = `t`; `t` and `heartbeat` in ns. Refused
/// with 1 to 5 (rules 10.1 to 10.5); a refused set-up answers a record that every call refuses
/// (rule 6.3).
#[tactic(auto, using(lease::proofs::NumbersLemmas::setup_numbered), unfolding(lease::specs::SetUp::setup_of))]
pub fn new_and_setup(me: ReplicaId, n: usize, t: u64, heartbeat: u64, now: Reading) -> Answered<()>
    ensures answer { result ≡ setup_of me n t heartbeat now }
    ensures number { number_of result.outcome ≡ setup_number me n t heartbeat now }
{
    let outcome = check_set_up(me, n, t, heartbeat, now);
    let manager = if outcome.is_ok() {
        fresh_manager(me, n, t, now)
    } else {
        fresh_manager(0, 0, 0, Reading(0))
    };
    Answered { outcome, manager }
}

// Timers over a clock reading (section 4): the Rust's src/utils/timer.rs with no sleeper task, since the caller says what time it is.
// Arming stands here, what a reading says of a timer in timer::read, and what holds of every timer in timer::laws.
#![tactic(auto)]

pub mod laws;
pub mod read;

ghost use Rattle.std.specs.Prelude.{◌≡◌, ◌≤◌, T, max, true};
ghost use Rattle.drift.specs.Drift.{longest};
ghost use Rattle.drift.specs.Clocks.{is_settable};
ghost use Rattle.drift.specs.Claims.{longest_in_use};
ghost use Rattle.timer.specs.Timers.{max_reading, Near, drifted, kicked_off, extended_by, is_active};

use drift::Clock;
use drift::clocks::clock_drifted;

/// The largest clock reading, in ns (rule 3.1).
pub const MAX_READING: u64 = 9_223_372_036_854_775_807;

/// A clock reading in ns (rule 3.1).
#[derive(Clone, Copy, PartialEq, Eq, PartialOrd, Ord)]
pub struct Reading(pub u64);

/// A timer (rule 4.1).
#[derive(Clone, Copy, PartialEq, Eq)]
pub enum Timer {
    /// No deadline is set.
    Unarmed,
    /// It explodes at the first reading at or past this deadline.
    Armed(Reading),
    /// It has exploded since it was last kicked off.
    Exploded,
}

/// What a reading makes of a timer (rule 4.5).
#[derive(Clone, Copy, PartialEq, Eq)]
pub struct Expired {
    /// The timer at the reading.
    pub timer: Timer,
    /// Whether it explodes there.
    pub fired: bool,
}

/// A duration in ns as the clock has it. Whatever `f64` the clock drifts by, no duration grows beyond
/// 2 ^ 20 s, so that a reading plus a drifted duration fits (rule 3.7).
#[tactic(auto, using(drift::proofs::Claims::clock_le))]
pub fn drifted_ns(clock: Clock, ns: u64) -> u64
    ensures drifts { result ≡ drifted clock ns }
    ensures small { result ≤ max ns longest }
{
    clock_drifted(clock, ns).ns
}

/// A timer set to now + the drifted duration, whatever it is before (rule 4.2).
pub fn kickoff(clock: Clock, now: Reading, ns: u64) -> Timer
    requires le_max_reading { now.0 ≤ max_reading }
    requires ns_le_max_reading { ns ≤ max_reading }
    ensures value { result ≡ kicked_off clock now ns }

    // Under a clock that a drift setting gives.
    ensures active { T (is_settable clock) → 3 ≤ ns → ns ≤ longest_in_use → is_active now result ≡ true }
    ensures near { T (is_settable clock) → ns ≤ longest_in_use → Near now result }
{
    Timer::Armed(Reading(now.0 + drifted_ns(clock, ns)))
}

/// A timer's deadline put off by a duration that is drifted already: from now on, if it is past or
/// there is none. An exploded timer stays as it is, since what it timed has ended (rule 4.3).
pub fn extend(now: Reading, by: u64, timer: Timer) -> Timer
    requires le_max_reading { now.0 ≤ max_reading }
    requires by_le_longest { by ≤ longest }
    requires near { Near now timer }
    ensures { result ≡ extended_by now by timer }
{
    match timer {
        Timer::Unarmed => Timer::Armed(Reading(now.0 + by)),
        Timer::Armed(deadline) => {
            let from = deadline.max(now);
            Timer::Armed(Reading(from.0 + by))
        }
        Timer::Exploded => Timer::Exploded,
    }
}

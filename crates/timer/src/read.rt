// What a clock reading says of a timer: whether it is active or exploded, whether it fires, and the time that is left.

ghost use Rattle.std.specs.Prelude.{◌≡◌, ◌↔◌, false};
ghost use Rattle.timer.specs.Timers.{is_active, is_exploded, ns_left, ms_left, expired_at};
ghost use Rattle.timer.specs.Claims.{RoundsUp};

use crate::{Expired, Reading, Timer};

const NANOS_PER_MILLI: u64 = 1_000_000;

/// Whether the timer is armed with a deadline above now (rule 4.4).
pub fn active(now: Reading, timer: Timer) -> bool
    ensures { result ≡ is_active now timer }
{
    matches!(timer, Timer::Armed(deadline) if now < deadline)
}

/// Whether the timer has exploded since it was last kicked off (rule 4.1).
pub fn exploded(timer: Timer) -> bool
    ensures { result ≡ is_exploded timer }
{
    matches!(timer, Timer::Exploded)
}

/// The timer at a reading: it explodes if it is armed and its deadline is not above the reading (rule 4.5).
pub fn expire(now: Reading, timer: Timer) -> Expired
    ensures { result ≡ expired_at now timer }
{
    match timer {
        Timer::Armed(deadline) if deadline <= now => Expired {
            timer: Timer::Exploded,
            fired: true,
        },
        _ => Expired {
            timer,
            fired: false,
        },
    }
}

/// Deadline minus now in whole milliseconds, rounded up: 0 exactly if the timer has run out or has
/// none (rule 4.6).
#[tactic(auto, using(crate::proofs::Claims::left_is_over, crate::proofs::Claims::left_rounds_up))]
pub fn left_ms(now: Reading, timer: Timer) -> u64
    ensures value { result ≡ ms_left now timer }
    ensures zero_when_over { (result ≡ 0) ↔ (is_active now timer ≡ false) }
    ensures rounded_up { RoundsUp (ns_left now timer) result }
{
    match timer {
        Timer::Armed(deadline) => deadline.0.saturating_sub(now.0).div_ceil(NANOS_PER_MILLI),
        Timer::Unarmed | Timer::Exploded => 0,
    }
}

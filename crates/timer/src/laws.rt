// What holds of the definitions of timers for every timer and reading. Each function has an empty body: its contract is the claim.

ghost use Rattle.timer.specs.Claims.{KickedOffActive, KickedOffNear, ExtendedActive, FiredInactive, ExpiredActive, FiredOnce, ExpiredAgain, ZeroWhenOver, LeftRoundedUp, LeftExamples};

/// Arming: under a clock that a setting gives, a timer kicked off for 3 ns to 20 s is active, and its deadline is at
/// most 3,000 s past the reading; an active timer that is extended stays active (rules 4.2 to 4.4).
pub fn armed_timers_are_active()
    ensures kicked_off_active { KickedOffActive }
    ensures kicked_off_near { KickedOffNear }
    ensures extended_active { ExtendedActive }
{}

/// Expiry: a timer that fires is over there and explodes, and it never fires again; expiry changes no timer's being
/// active there, and done again at the same reading changes nothing (rule 4.5).
pub fn timers_fire_once()
    ensures fired_inactive { FiredInactive }
    ensures expired_active { ExpiredActive }
    ensures fired_once { FiredOnce }
    ensures expired_again { ExpiredAgain }
{}

/// Time left: 0 exactly when the timer is not active, and rounded up (rule 4.6).
pub fn time_left_rounds_up()
    ensures zero_when_over { ZeroWhenOver }
    ensures rounded_up { LeftRoundedUp }
    ensures worked_examples { LeftExamples }
{}

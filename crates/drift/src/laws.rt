// What holds of the definitions of drift for every setting, quotient and duration. Each function has an empty body: its contract is the claim.

ghost use Rattle.drift.specs.Claims.{StrictBound, AtMost, AboveZero, ExactAtOne, FoundSetting, SettingFound, FoundAtMost, FoundAboveZero, ClockAtMost, ClockAboveZero, DriftedLe, ClockLe};
ghost use Rattle.drift.specs.Examples.{DriftLine, Ties, NoQuotient};

/// The bound (rule 3.6): under every setting, for a duration of up to 20 s, the answer times the rate differs from a
/// hundred times the duration by less than the rate. So the answer is at most a hundred times the duration, above 0
/// from 3 ns on, and exact at the rate 1.
pub fn answers_meet_bound()
    ensures less_than_rate { StrictBound }
    ensures at_most_hundredfold { AtMost }
    ensures above_zero { AboveZero }
    ensures exact_at_rate_1 { ExactAtOne }
{}

/// `is_quotient` says true of the quotients of the settings and of no other `f64` (rule 3.7).
pub fn quotients_are_of_settings()
    ensures of_a_setting { FoundSetting }
    ensures of_each_setting { SettingFound }
{}

/// What callers rely on: for a duration of up to 20 s, under a quotient that is found and under a clock that a setting
/// gives, the answer is at most a hundred times the duration, and above 0 from 3 ns on.
pub fn answers_are_in_range()
    ensures found_at_most_hundredfold { FoundAtMost }
    ensures found_above_zero { FoundAboveZero }
    ensures clock_at_most_hundredfold { ClockAtMost }
    ensures clock_above_zero { ClockAboveZero }
{}

/// No quotient, a NaN or an infinity either, gives more than 2 ^ 20 s, and so no clock more than the larger of that
/// and the duration (rule 3.7).
pub fn answers_stay_below_longest()
    ensures of_quotients { DriftedLe }
    ensures of_clocks { ClockLe }
{}

/// Durations under five settings, ties, and quotients that no setting gives.
pub fn worked_examples()
    ensures durations { DriftLine }
    ensures ties { Ties }
    ensures no_quotients { NoQuotient }
{}

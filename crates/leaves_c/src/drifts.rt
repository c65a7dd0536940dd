// Clock drift (section 3). No enum crosses to C, so there is a function for each case of the clock.

ghost use Rattle.std.specs.Prelude.{◌≡◌};
ghost use Rattle.drift.specs.Drift.{rate_of, quotient_of, is_quotient, ns_of};
ghost use Rattle.drift.specs.Clocks.{drifted_on};
ghost use Rattle.drift.specs.declared.Clock.TheVariants.{True, Drifting};
ghost use Rattle.leaves_c.specs.Flat.{flat_drifted};

use drift::{Clock, Drifted};

/// `drift::Drifted` as C has it: the fields of its working record beside the answer.
#[repr(C)]
#[derive(Clone, Copy)]
pub struct DriftedC {
    /// The answer in ns (rule 3.5).
    pub ns: u64,
    /// The duration in seconds.
    pub seconds: f64,
    /// The clock's quotient.
    pub quotient: f64,
    /// The quotient times the seconds.
    pub product: f64,
}

impl From<Drifted> for DriftedC {
    ghost from_gives = { λ r c. c ≡ flat_drifted r };

    fn from(r: Drifted) -> DriftedC {
        DriftedC {
            ns: r.ns,
            seconds: r.working.seconds,
            quotient: r.working.quotient,
            product: r.working.product,
        }
    }
}

/// `drift::floats::rate`: the rate of a drift setting (rule 3.3).
#[unsafe(no_mangle)]
pub extern "C" fn drift_rate(d: i8) -> u64
    ensures { result ≡ rate_of d }
{
    drift::floats::rate(d)
}

/// `drift::floats::quotient`: the quotient of a drift setting (rule 3.3).
#[unsafe(no_mangle)]
pub extern "C" fn drift_quotient(d: i8) -> f64
    ensures { result ≡ quotient_of d }
{
    drift::floats::quotient(d)
}

/// `drift::clocks::is_quotient`: whether some drift setting gives the quotient q (rule 3.7).
#[unsafe(no_mangle)]
pub extern "C" fn drift_is_quotient(q: f64) -> bool
    ensures { result ≡ is_quotient q }
{
    drift::clocks::is_quotient(q)
}

/// `drift::floats::in_ns`: p seconds in ns (rule 3.5).
#[unsafe(no_mangle)]
pub extern "C" fn drift_in_ns(p: f64) -> u64
    ensures { result ≡ ns_of p }
{
    drift::floats::in_ns(p)
}

/// `drift::clocks::clock_drifted` under the true clock (rule 3.2).
#[unsafe(no_mangle)]
pub extern "C" fn drift_true(ns: u64) -> DriftedC
    ensures { result ≡ flat_drifted (drifted_on True ns) }
{
    drift::clocks::clock_drifted(Clock::True, ns).into()
}

/// `drift::clocks::clock_drifted` under a clock that drifts by the quotient q (rule 3.2).
#[unsafe(no_mangle)]
pub extern "C" fn drift_by(q: f64, ns: u64) -> DriftedC
    ensures { result ≡ flat_drifted (drifted_on (Drifting q) ns) }
{
    drift::clocks::clock_drifted(Clock::Drifting(q), ns).into()
}

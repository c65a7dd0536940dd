// The float arithmetic of clock drift: the rate and the quotient of a setting, seconds and back to ns (rules 3.3 to 3.5).

ghost use Rattle.std.specs.Prelude.{◌≡◌, cond, eqb, ◌%◌, ◌*◌, ◌^◌, ◌≤◌, ◌<◌};
ghost use Rattle.std.specs.Float.Ieee.Nearest.{closest};
ghost use Rattle.drift.specs.Drift.{nanos_per_sec, rate_of, quotient_at, quotient_of, seconds_of, ns_of};

const NANOS_PER_SEC: u64 = 1_000_000_000;

// The largest answer of a clock that drifts, 2 ^ 20 s in ns.
const LONGEST: u64 = (1 << 20) * NANOS_PER_SEC;

// 2 ^ 52: the leading digit of an f64, which its bits leave out.
const LEADING: u64 = 1 << 52;

/// The rate of a drift setting: the larger of 1 and 100 + d (rule 3.3).
#[tactic(auto, using(crate::proofs::Rates::code_rate))]
pub fn rate(d: i8) -> u64
    ensures { result ≡ rate_of d }
{
    // By `as`, here and below: the value fits, and to a float there is no `try_from`.
    (100 + i16::from(d)).max(1) as u64
}

/// The quotient of a rate, 100.0 / rate (rule 3.3).
#[tactic(auto, using(crate::proofs::Literals::hundred_is), unfolding(crate::specs::Drift::ratio))]
pub fn quotient_at(rate: u64) -> f64
    requires { rate ≤ 1000 }
    ensures { result ≡ quotient_at rate }
{
    100.0 / rate as f64
}

/// The quotient of a drift setting (rule 3.3).
#[tactic(auto, using(crate::proofs::Rates::read_rate_le))]
pub fn quotient(d: i8) -> f64
    ensures { result ≡ quotient_of d }
{
    quotient_at(rate(d))
}

/// Seconds: whole seconds as a float, plus (the rest in ns as a float / 1e9) (rule 3.4).
#[tactic(auto, using(crate::proofs::Literals::billion_is), unfolding(crate::specs::Drift::seconds_of))]
pub fn in_seconds(ns: u64) -> f64
    ensures { result ≡ seconds_of ns }
{
    (ns / NANOS_PER_SEC) as f64 + (ns % NANOS_PER_SEC) as f64 / 1_000_000_000.0
}

// What rounding adds beside half a unit less one, where the rest is half a unit and what lies below it is `low`: ties go to even.
#[inline(always)]
fn carry(low: u64, whole: u64) -> u64
    ensures { result ≡ cond (eqb low 0) (whole % 2) 1 }
{
    if low == 0 { whole % 2 } else { 1 }
}

// mantissa * 10 ^ 9 / 2 ^ places, to nearest, ties to even: half a unit less one is added, and the carry, and the rest is cut off. The
// product does not fit 64 bits, and a shift of 128 bits by a number takes several times as long as one of 64: of its low 32 bits it counts
// only whether there are any.
fn nearest_ns(mantissa: u64, places: u64) -> u64
    requires mantissa_bound { mantissa < 2 ^ 53 }
    requires le_places { 33 ≤ places }
    requires places_bound { places ≤ 95 }
    ensures { result ≡ closest (mantissa * nanos_per_sec) (2 ^ places) }
{
    let product = u128::from(mantissa) * 1_000_000_000;
    let high = (product / 0x1_0000_0000) as u64;
    let low = (product % 0x1_0000_0000) as u64;
    let half = 1_u64 << (places - 33);
    let whole = high >> (places - 32);
    (high + (half - 1) + carry(low, whole)) >> (places - 32)
}

/// p seconds in ns, to nearest, ties to even (rule 3.5), at most 2 ^ 20 s. What is not above 0, a NaN too, gives 0.
#[tactic(auto, using(crate::proofs::Pattern::low_field, crate::proofs::Pattern::mid_field, crate::proofs::Pattern::high_field, crate::proofs::Pattern::not_above))]
pub fn in_ns(p: f64) -> u64
    ensures { result ≡ ns_of p }
{
    // The field of the exponent, and the 52 digits below the leading one. A field below 980 means less than half a
    // ns, one above 1042 at least 2 ^ 20 s.
    if p > 0.0 {
        let bits = p.to_bits();
        let digits = bits % LEADING;
        match bits / LEADING {
            0..=979 => 0,
            field @ 980..=1042 => nearest_ns(LEADING + digits, 1075 - field),
            _ => LONGEST,
        }
    } else {
        0
    }
}

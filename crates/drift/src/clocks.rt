// `clock_drifted` of the Rust's src/utils/faults.rs, and which quotients a drift setting gives. Every quotient, a
// NaN too, has its answer.

ghost use Rattle.std.specs.Prelude.{◌≡◌};
ghost use Rattle.drift.specs.Drift.{is_quotient};
ghost use Rattle.drift.specs.Clocks.{drifted_on};
ghost use Rattle.drift.specs.Claims.{MeetsBound};

use crate::floats::{in_ns, in_seconds, quotient_at};
use crate::{Clock, Drifted, Working};

// The smallest and the largest quotient, 100 / 227 and 100, each as seconds in ns.
const LEAST_QUOTIENT: u64 = 440_528_634;

const LARGEST_QUOTIENT: u64 = 100_000_000_000;

/// Whether some drift setting gives the quotient q (rule 3.7). Its rate can only be the whole number nearest to
/// 100 / q, and one comparison decides.
#[tactic(auto, using(crate::proofs::Quotients::decides, crate::proofs::Quotients::below_least, crate::proofs::Quotients::above_largest))]
pub fn is_quotient(q: f64) -> bool
    ensures { result ≡ is_quotient q }
{
    match in_ns(q) {
        ns @ LEAST_QUOTIENT..=LARGEST_QUOTIENT => {
            let rate = (LARGEST_QUOTIENT + ns / 2) / ns;
            q == quotient_at(rate)
        }
        _ => false,
    }
}

/// What the duration becomes under the clock, and how it is worked out (rules 3.2 to 3.6).
#[tactic(auto, using(crate::proofs::Literals::zero_is), unfolding(crate::specs::Clocks::drifted_on, crate::specs::Drift::drifted_by, crate::specs::Drift::product_of))]
pub fn clock_drifted(clock: Clock, ns: u64) -> Drifted
    ensures value { result ≡ drifted_on clock ns }

    // Rule 3.6, under each setting.
    ensures bound { MeetsBound clock ns result.ns }
{
    match clock {
        Clock::True => Drifted {
            ns,
            working: Working {
                seconds: 0.0,
                quotient: 0.0,
                product: 0.0,
            },
        },
        Clock::Drifting(q) => {
            let seconds = in_seconds(ns);
            let product = q * seconds;
            Drifted {
                ns: in_ns(product),
                working: Working {
                    seconds,
                    quotient: q,
                    product,
                },
            }
        }
    }
}

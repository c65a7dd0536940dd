// Set-up's limits (rule 6.1), which the record check looks at again (rule 10.15).

ghost use Rattle.std.specs.Prelude.{◌≡◌};
ghost use Rattle.lease.specs.Limits.{timeout_valid, population_valid, own_valid, reading_valid};

use lease::{CAPACITY, Reading, ReplicaId};
use timer::MAX_READING;

// T in ns: 100 ms to 10 s.
const SHORTEST_TIMEOUT: u64 = 100_000_000;

const LONGEST_TIMEOUT: u64 = 10_000_000_000;

/// T in ns is 100 ms to 10 s, both included (rule 10.1).
pub fn is_valid_timeout(t: u64) -> bool
    ensures { result ≡ timeout_valid t }
{
    (SHORTEST_TIMEOUT..=LONGEST_TIMEOUT).contains(&t)
}

/// The population is 1 to the capacity of sets and records (rule 10.3).
pub fn is_valid_population(n: usize) -> bool
    ensures { result ≡ population_valid n }
{
    (1..=usize::from(CAPACITY)).contains(&n)
}

/// The own id is below the population (rule 10.4).
pub fn is_valid_own(me: ReplicaId, n: usize) -> bool
    ensures { result ≡ own_valid me n }
{
    me < n
}

/// The reading is at most the largest one (rules 3.1, 10.5).
pub fn is_valid_reading(now: Reading) -> bool
    ensures { result ≡ reading_valid now }
{
    now <= Reading(MAX_READING)
}

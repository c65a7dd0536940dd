// The calls about time on a record that is not refused, where it stands: advance, quiet start,
// refresh, drift setting (rules 8.1 to 8.6). Reading and quiet timer are two arguments, since
// advance asks of a reading that is not the record's yet.

ghost use Rattle.std.specs.Prelude.{◌≡◌, ◌≤◌, ◌<◌, Ok};
ghost use Rattle.lease.specs.Bitmaps.{capacity};
ghost use Rattle.lease.specs.Calls.{quiet_fires, quiet_at, is_quiet, quiet_end, assume_unknown_grants, advance_to, attempt_refresh, clock_of, set_drift};
ghost use Rattle.engine.specs.Fits.{NearRows};
ghost use Rattle.refusals.specs.Fits.{LimitsFit};

use drift::floats::quotient;
use lease::{Advanced, Bitmap, Clock, LeaseAction, LeaseNum, Line, Manager, Reading, ReplicaId};
use peer_rows::each_row::{Due, Refresh};
use peer_rows::exploding::explode;
use peer_rows::firing::fired_timers;
use peer_rows::pass::{pass_over, sets_over};
use timer::drifted_ns;

/// Whether the quiet timer fires at the reading: its deadline is at or below it (rule 8.4).
pub fn quiet_fires(now: Reading, quiet: Option<Reading>) -> bool
    ensures { result ≡ quiet_fires now quiet }
{
    quiet.is_some_and(|deadline| deadline <= now)
}

/// The quiet timer once the reading is reached: gone if it fired (rule 8.4).
pub fn quiet_at(now: Reading, quiet: Option<Reading>) -> Option<Reading>
    ensures { result ≡ quiet_at now quiet }
{
    quiet.filter(|deadline| *deadline > now)
}

/// Whether it is quiet time at the reading (rules 1.6, 8.4).
pub fn is_quiet(now: Reading, quiet: Option<Reading>) -> bool
    ensures { result ≡ is_quiet now quiet }
{
    quiet.is_some_and(|deadline| now < deadline)
}

/// The quiet-end line, if the quiet timer fired: under number 0, GrantTimeout of (own id + 1) mod
/// population (rule 8.4).
pub fn quiet_end(fired: bool, own: ReplicaId, population: usize) -> Option<Line>
    requires own_lt_population { own < population }
    requires population_le_capacity { population ≤ capacity }
    ensures { result ≡ quiet_end fired own population }
{
    let next = (own + 1) % population;
    fired.then_some(Line(LeaseNum(0), LeaseAction::GrantTimeout(next)))
}

/// Quiet time starts: the quiet timer is armed for the drifted 2T, replacing an earlier one (rule
/// 8.4).
#[tactic(auto, unfolding(lease::specs::Calls::assume_unknown_grants))]
pub fn start_quiet(m: &mut Manager)
    requires { LimitsFit m.old }
    ensures { m.new ≡ assume_unknown_grants m.old }
{
    let by = drifted_ns(m.clock, 2 * m.expire_timeout);
    m.quiet_timer = Some(Reading(m.now.0 + by));
}

/// Advance (rules 8.1 to 8.4): the reading is set, and each timer that is due explodes once. The
/// fired list is ordered by the deadlines before they explode, so it is made before they do. Rows
/// with nothing that is due are only read.
#[tactic(auto, unfolding(lease::specs::Calls::advance_to, lease::specs::Calls::fired_by, lease::specs::Passes::pass_over))]
pub fn advance_to(m: &mut Manager, to: Reading) -> Advanced
    requires { LimitsFit m.old }
    ensures answer { (advance_to m.old to).outcome ≡ Ok result }
    ensures record_after { m.new ≡ (advance_to m.old to).manager }
{
    let (me, n) = (m.me, m.population);
    let due = sets_over(&m.peers, me, n, &Due { to });
    let advanced = Advanced {
        sent: due.first,
        held: due.second,
        quiet_end: quiet_end(quiet_fires(to, m.quiet_timer), me, n),
        fired: fired_timers(&m.peers, due),
    };
    explode(&mut m.peers, me, n, to, due);
    m.quiet_timer = quiet_at(to, m.quiet_timer);
    m.now = to;
    advanced
}

/// `attempt_refresh` (rule 8.5): the promises to the marked peers that the set names are extended
/// by T, drifted once for all of them.
#[tactic(auto, unfolding(lease::specs::Calls::attempt_refresh, crate::specs::Fits::NearRows))]
pub fn refresh(m: &mut Manager, set: Option<Bitmap>) -> Bitmap
    requires fits { LimitsFit m.old }
    requires near { NearRows m.old }
    ensures answer { (attempt_refresh m.old set).outcome ≡ Ok result }
    ensures record_after { m.new ≡ (attempt_refresh m.old set).manager }
{
    let (me, n, now) = (m.me, m.population, m.now);
    let by = drifted_ns(m.clock, m.expire_timeout);
    pass_over(&mut m.peers, me, n, &Refresh { set, now, by }).first
}

/// The clock of a drift setting, in percent; none is a true clock.
pub fn clock_of(setting: Option<i8>) -> Clock
    ensures { result ≡ clock_of setting }
{
    setting.map_or(Clock::True, |d| Clock::Drifting(quotient(d)))
}

/// The clock of a drift setting, in percent (rule 8.6).
#[tactic(auto, unfolding(lease::specs::Calls::set_drift))]
pub fn set_clock(m: &mut Manager, setting: Option<i8>)
    ensures { m.new ≡ set_drift m.old setting }
{
    m.clock = clock_of(setting);
}

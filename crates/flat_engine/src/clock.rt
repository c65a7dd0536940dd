// The calls about time on a flat record where it stands (rules 8.1 to 8.6), as `engine::clock` on a manager's.

ghost use Rattle.std.specs.Prelude.{◌≡◌, Ok};
ghost use Rattle.lease.specs.Calls.{assume_unknown_grants, advance_to, attempt_refresh, clock_of, set_drift};
ghost use Rattle.engine.specs.Fits.{NearRows};
ghost use Rattle.wire.specs.Flat.{flat_of};
ghost use Rattle.wire.specs.FromFlat.{manager_of};
ghost use Rattle.flat_engine.specs.FlatRows.{FlatFits};

use crate::fired::explode;
use crate::rows::{flat_pass_over, flat_sets_over};
use engine::clock::{clock_of, quiet_at, quiet_end, quiet_fires};
use flat_record::from_flat::{clock_by_flag, quiet_timer_by_flag};
use flat_record::to_flat::{clock_drifting, clock_quotient, quiet_flag, quiet_until_of};
use lease::{Advanced, Bitmap, Reading};
use peer_rows::each_row::{Due, Refresh};
use timer::drifted_ns;
use wire::flat::ManagerC;

/// Quiet time starts (rule 8.4).
#[tactic(auto, unfolding(wire::specs::FromFlat::manager_of))]
pub fn start_quiet(f: &mut ManagerC)
    requires { FlatFits f.old }
    ensures { f.new ≡ flat_of (assume_unknown_grants (manager_of f.old)) }
{
    let clock = clock_by_flag(f.drifting, f.quotient);
    let by = drifted_ns(clock, 2 * f.expire_timeout);
    f.quiet = 1;
    f.quiet_until = f.now + by;
}

/// Advance (rules 8.1 to 8.4).
#[tactic(auto, unfolding(lease::specs::Calls::advance_to, lease::specs::Calls::fired_by, wire::specs::FromFlat::manager_of))]
pub fn advance_to(f: &mut ManagerC, to: Reading) -> Advanced
    requires { FlatFits f.old }
    ensures answer { (advance_to (manager_of f.old) to).outcome ≡ Ok result }
    ensures record_after { f.new ≡ flat_of (advance_to (manager_of f.old) to).manager }
{
    let (me, n) = (f.me, f.population);
    let quiet = quiet_timer_by_flag(f.quiet, f.quiet_until);
    let due = flat_sets_over(&f.peers, me, n, &Due { to });
    let fired = explode(&mut f.peers, me, n, to, due);
    let left = quiet_at(to, quiet);
    f.quiet = quiet_flag(left);
    f.quiet_until = quiet_until_of(left);
    f.now = to.0;
    Advanced {
        sent: due.first,
        held: due.second,
        quiet_end: quiet_end(quiet_fires(to, quiet), me, n),
        fired,
    }
}

/// `attempt_refresh` (rule 8.5).
#[tactic(auto, unfolding(lease::specs::Calls::attempt_refresh, engine::specs::Fits::NearRows, wire::specs::FromFlat::manager_of))]
pub fn refresh(f: &mut ManagerC, set: Option<Bitmap>) -> Bitmap
    requires fits { FlatFits f.old }
    requires near { NearRows (manager_of f.old) }
    ensures answer { (attempt_refresh (manager_of f.old) set).outcome ≡ Ok result }
    ensures record_after { f.new ≡ flat_of (attempt_refresh (manager_of f.old) set).manager }
{
    let (me, n, now) = (f.me, f.population, Reading(f.now));
    let clock = clock_by_flag(f.drifting, f.quotient);
    let by = drifted_ns(clock, f.expire_timeout);
    flat_pass_over(&mut f.peers, me, n, &Refresh { set, now, by }).first
}

/// The clock of a drift setting, in percent (rule 8.6).
pub fn set_clock(f: &mut ManagerC, setting: Option<i8>)
    requires { FlatFits f.old }
    ensures { f.new ≡ flat_of (set_drift (manager_of f.old) setting) }
{
    let clock = clock_of(setting);
    f.drifting = clock_drifting(clock);
    f.quotient = clock_quotient(clock);
}

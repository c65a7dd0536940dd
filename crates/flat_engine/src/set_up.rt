// Set-up on a lent flat record, which is not looked at: its fields and blank rows are written where they stand (rules 6.1 to 6.3).

ghost use Rattle.std.specs.Prelude.{◌≡◌, IfOk, IfErr, map};
ghost use Rattle.lease.specs.SetUp.{fresh, setup_of};
ghost use Rattle.wire.specs.Flat.{flat_of};

use engine::set_up::check_set_up;
use flat_record::to_flat::{clock_drifting, clock_quotient};
use lease::{Clock, Reading, Refusal, ReplicaId};
use wire::flat::{ManagerC, PeerC};

// What set-up starts with (rule 6.2): number 0, every row blank, outside quiet time, a true clock.
fn start(f: &mut ManagerC, me: ReplicaId, n: usize, t: u64, now: Reading)
    ensures { f.new ≡ flat_of (fresh me n t now) }
{
    f.me = me;
    f.population = n;
    f.expire_timeout = t;
    f.now = now.0;
    f.active_num = 0;
    f.quotient = clock_quotient(Clock::True);
    f.drifting = clock_drifting(Clock::True);
    f.quiet = 0;
    f.quiet_until = 0;
    f.peers.fill(PeerC {
        guard_sent: 0,
        promise_sent: 0,
        guard_held: 0,
        promise_held: 0,
        revoking: 0,
        refresh_mark: 0,
        guard_sent_at: 0,
        promise_sent_at: 0,
        guard_held_at: 0,
        promise_held_at: 0,
    });
}

/// A manager of own id `me` among `n` controllers, with T = `t`; `t` and `heartbeat` in ns. Refused with 1 to 5 (rules 10.1 to 10.5); the
/// record then stays.
#[tactic(auto, unfolding(lease::specs::SetUp::setup_of))]
pub fn set_up(
    f: &mut ManagerC,
    me: ReplicaId,
    n: usize,
    t: u64,
    heartbeat: u64,
    now: Reading,
) -> Result<(), Refusal>
    ensures answer { result ≡ (setup_of me n t heartbeat now).outcome }
    ensures accepted { IfOk result (λ done. f.new ≡ flat_of (setup_of me n t heartbeat now).manager) }
    ensures refused { IfErr result (λ k. f.new ≡ f.old) }
{
    check_set_up(me, n, t, heartbeat, now)?;
    start(f, me, n, t, now);
    Ok(())
}

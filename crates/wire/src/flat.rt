// The manager's record as it crosses to the host (rule 13.1): plain numbers only, since a struct that holds an enum cannot be exported,
// and so that every bit pattern that a host can lend is a value. What the numbers stand for is in specs/Flat and specs/FromFlat, which are
// no manager's record in specs/Form.

use lease::ROWS;

/// One id's row (rule 5.2). A tag is 0 absent, 1 unarmed, 2 armed, 3 exploded; a deadline, in ns, is 0 where nothing is armed.
/// `revoking` and `refresh_mark` are 0 or 1.
#[repr(C)]
#[derive(Clone, Copy)]
pub struct PeerC {
    pub guard_sent: u8,
    pub promise_sent: u8,
    pub guard_held: u8,
    pub promise_held: u8,
    pub revoking: u8,
    pub refresh_mark: u8,
    pub guard_sent_at: u64,
    pub promise_sent_at: u64,
    pub guard_held_at: u64,
    pub promise_held_at: u64,
}

/// The record (rule 5.1), one row an id. Readings and `expire_timeout` (T) are in ns. `drifting` and `quiet` are 0 or 1; `quotient` is 1.0
/// where the clock is true, `quiet_until` 0 outside quiet time.
#[repr(C)]
#[derive(Clone, Copy)]
pub struct ManagerC {
    pub me: usize,
    pub population: usize,
    pub expire_timeout: u64,
    pub now: u64,
    pub active_num: u64,
    pub quotient: f64,
    pub quiet_until: u64,
    pub drifting: u8,
    pub quiet: u8,
    pub peers: [PeerC; ROWS],
}

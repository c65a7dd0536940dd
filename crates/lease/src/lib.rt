// The types of the lease manager, with the names of the Rust's src/server/leaseman.rs. The rules on
// them are definitions, in specs/; `laws` claims what holds of the rules.
#![tactic(auto)]

ghost use Rattle.std.specs.Prelude.{[], ◌≡◌};
ghost use Rattle.lease.specs.Fired.{fired_array};
ghost use Rattle.lease.specs.Refusals.{refusal_number};

pub mod laws;

pub use bitmap::{Bitmap, CAPACITY};
pub use drift::Clock;
pub use timer::{Reading, Timer};

// ---- ids and numbers

/// A controller's id (rule 1.1). Wider than the Rust's u8, so that an id is judged as it was
/// written: 300 is refused as 300.
pub type ReplicaId = usize;

/// A lease number (rule 1.2). A struct of its own, as `Bar` and `Reading` are, so that one is never
/// taken for another.
#[derive(Clone, Copy, PartialEq, Eq, PartialOrd, Ord)]
pub struct LeaseNum(pub u64);

/// An accept bar (rule 1.2): a threshold that a Guard may carry for the protocol above.
#[derive(Clone, Copy)]
pub struct Bar(pub u64);

/// How many ids a record has rows for: the capacity of a set.
pub const ROWS: usize = CAPACITY as usize;

/// How many timers can fire at once: one on each side for each id.
pub const TIMERS: usize = 2 * ROWS;

// ---- the record

/// One id's row (rule 5.2): its entry of each of the Rust's four tables, and its refresh mark.
#[derive(Clone, Copy)]
pub struct Peer {
    /// The guard sent to the peer: never armed.
    pub guard_sent: Option<Timer>,
    /// The promise sent to the peer, and whether it is being revoked: a pair, as the Rust's table
    /// has it.
    pub promise_sent: Option<(Timer, bool)>,
    /// The guard held from the peer.
    pub guard_held: Option<Timer>,
    /// The promise held from the peer.
    pub promise_held: Option<Timer>,
    /// The refresh mark (rule 1.7): the next refresh is to take the peer.
    pub refresh_mark: bool,
}

/// A manager's record (rule 5.1).
#[derive(Clone, Copy)]
pub struct Manager {
    /// The own id.
    pub me: ReplicaId,
    /// How many controllers there are: their ids are those below it.
    pub population: usize,
    /// T (rule 1.3), in ns.
    pub expire_timeout: u64,
    /// The reading of the last accepted advance, or of set-up.
    pub now: Reading,
    /// The highest lease number so far.
    pub active_num: LeaseNum,
    /// The clock that T is measured by.
    pub clock: Clock,
    /// The reading at which quiet time (rule 1.6) ends; none outside it.
    pub quiet_timer: Option<Reading>,
    /// A row for each id; those of the own id and from the population on are empty.
    pub peers: [Peer; ROWS],
}

/// What the deadlines of a notice are worked out from.
#[derive(Clone, Copy)]
pub struct Term {
    pub clock: Clock,
    pub now: Reading,
    /// T, in ns, before the clock's drift.
    pub expire_timeout: u64,
}

// ---- messages and notices

/// A message between two controllers.
#[derive(Clone, Copy)]
pub enum LeaseMsg {
    /// Rule 7.7, with the Rust's `accept_bar`.
    Guard(Option<Bar>),
    /// Rule 7.8.
    GuardReply,
    /// Rule 7.9.
    Promise,
    /// Rule 7.10. Whether the promise is held.
    PromiseReply(bool),
    /// Rule 7.11.
    Revoke,
    /// Rule 7.12. Whether a promise was held.
    RevokeReply(bool),
}

/// A notice (rule 1.5). A set is the Rust's `peers: Option<Bitmap>`: no set means all.
#[derive(Clone, Copy)]
pub enum LeaseNotice {
    /// Rule 7.4: guards for these peers, with this bar.
    NewGrants(Option<Bitmap>, Option<Bar>),
    /// Rule 7.5: revoke what was sent to these peers.
    DoRevoke(Option<Bitmap>),
    /// Rule 7.6: drop all that is held.
    ClearHeld,
    /// Rules 7.7 to 7.12: a message came from the peer.
    RecvLeaseMsg(ReplicaId, LeaseMsg),
    /// Rule 7.13: the timer on the sent side fired for the peer.
    GrantTimeout(ReplicaId),
    /// Rule 7.13: the timer on the held side fired for the peer.
    LeaseTimeout(ReplicaId),
}

/// What a notice about one peer says of that peer: three cases of `LeaseNotice`, without the id.
#[derive(Clone, Copy)]
pub enum PeerNotice {
    RecvLeaseMsg(LeaseMsg),
    GrantTimeout,
    LeaseTimeout,
}

// ---- actions and lines

/// What a notice tells its caller to do, or to know (rule 1.5).
#[derive(Clone, Copy)]
pub enum LeaseAction {
    /// Send the message to the peer.
    SendLeaseMsg(ReplicaId, LeaseMsg),
    /// Send the message to each peer of the set, which may be empty.
    BcastLeaseMsgs(Bitmap, LeaseMsg),
    /// The peer's promise goes on with the next refresh.
    NextRefresh(ReplicaId),
    /// The promise to the peer is gone. Whether the peer says that it held it.
    GrantRemoved(ReplicaId, bool),
    /// Nothing is held any more.
    LeaseCleared,
    /// What was sent to the peer has run out.
    GrantTimeout(ReplicaId),
    /// What was held from the peer has run out.
    LeaseTimeout(ReplicaId),
    /// The notice had a higher number than the active one.
    HigherNumber,
    /// The peer's Guard carried this bar.
    GuardAcceptBar(ReplicaId, Bar),
}

/// The actions of a handler, in order, before they are numbered. An enum, since a list would need a
/// heap or a capacity.
#[derive(Clone, Copy)]
pub enum Actions {
    None,
    One(LeaseAction),
    Two(LeaseAction, LeaseAction),
}

/// An action under its number (rule 1.5): the Rust's `(LeaseNum, LeaseAction)`.
#[derive(Clone, Copy)]
pub struct Line(pub LeaseNum, pub LeaseAction);

/// The lines of one notice, in order: at most three (rule 7.14), by type.
#[derive(Clone, Copy)]
pub enum Lines {
    None,
    One(Line),
    Two(Line, Line),
    Three(Line, Line, Line),
}

// ---- what the rules give, with the next row or record beside it

/// What a notice about one peer makes of that peer's row, and its actions.
#[derive(Clone, Copy)]
pub struct Handled {
    pub peer: Peer,
    pub actions: Actions,
}

/// What a pass makes of one row.
#[derive(Clone, Copy)]
pub struct Visit {
    /// The row after it, changed or not.
    pub peer: Peer,
    /// Whether the id is in the pass's first set.
    pub first: bool,
    /// Whether it is in the second.
    pub second: bool,
}

/// What a pass makes of all rows.
#[derive(Clone, Drop)]
pub struct Passed {
    pub peers: [Peer; ROWS],
    /// Of advance: the peers whose sent timers fired. Of the other passes: the peers that were
    /// taken.
    pub first: Bitmap,
    /// Of advance: the peers whose held timers fired. Of the other passes: empty.
    pub second: Bitmap,
    /// How many ids the first set has, so that `lease_cnt` needs no second pass.
    pub count: u64,
}

/// A notice's actions before they are numbered, and the next record.
#[derive(Clone, Drop)]
pub struct Acted {
    pub actions: Actions,
    pub manager: Manager,
}

/// A notice that is not refused: its lines, and the next record.
#[derive(Clone, Drop)]
pub struct Accepted {
    pub lines: Lines,
    pub manager: Manager,
}

// ---- timers that fired

/// A timer that fired. The id is a byte, as in the Rust, and the struct is laid out as in C, so
/// that the list crosses to a host as it is.
#[repr(C)]
#[derive(Clone, Copy)]
pub struct FiredTimer {
    /// The held side; else the sent side.
    pub held: bool,
    /// Whose it is.
    pub id: u8,
}

/// The timers that fired, in the firing order (rule 8.3). A count beside an array, since a host
/// gets it over the C interface as it is.
#[repr(C)]
#[derive(Clone, Copy)]
pub struct FiredTimers {
    /// How many places are used, from the first on.
    pub count: usize,
    /// The unused places hold the sent timer of the id 0.
    pub timers: [FiredTimer; TIMERS],
}

impl FiredTimers {
    /// No timer.
    #[tactic(auto, unfolding(crate::specs::Fired::fired_array))]
    pub fn none() -> FiredTimers
        ensures { result ≡ fired_array [] }
    {
        let unused = FiredTimer { held: false, id: 0 };
        FiredTimers {
            count: 0,
            timers: [unused; TIMERS],
        }
    }
}

// ---- refusals and answers

/// Why set-up or a call on a record is refused. Its number is all that is shown of it (rule 10.31).
#[derive(Clone, Copy, PartialEq, Eq)]
pub enum Refusal {
    /// 1 (rule 10.1): T is under 100 ms or over 10 s.
    TimeoutOutOfRange,
    /// 2 (rule 10.2): twice the heartbeat is not below T.
    HeartbeatTooSlow,
    /// 3 (rule 10.3): the population is not 1 to the capacity.
    PopulationOutOfRange,
    /// 4 (rule 10.4): the own id is not below the population.
    OwnNotBelowPopulation,
    /// 5 (rule 10.5): the reading is over 9,223,372,036,854,775,807 ns.
    ReadingTooHigh,
    /// 6 (rule 10.6): the reading is below the present one.
    ReadingBelowPresent,
    /// 7 (rule 10.7): the peer is not below the population.
    PeerNotBelowPopulation,
    /// 8 (rule 10.8): the peer is the own id.
    PeerIsOwn,
    /// 9 (rule 10.9): the size of a notice's set is not the population.
    SetSizeNotPopulation,
    /// 12 (rule 10.12): the size of a refresh set is not 1 to the capacity.
    SetSizeOutOfRange,
    /// 15 (rule 10.15): the record is no manager's.
    InvalidRecord,
}

impl Refusal {
    /// The number of the refusal: refusal N is rule 10.N.
    pub fn number(self) -> u8
        ensures { result ≡ refusal_number self }
    {
        match self {
            Refusal::TimeoutOutOfRange => 1,
            Refusal::HeartbeatTooSlow => 2,
            Refusal::PopulationOutOfRange => 3,
            Refusal::OwnNotBelowPopulation => 4,
            Refusal::ReadingTooHigh => 5,
            Refusal::ReadingBelowPresent => 6,
            Refusal::PeerNotBelowPopulation => 7,
            Refusal::PeerIsOwn => 8,
            Refusal::SetSizeNotPopulation => 9,
            Refusal::SetSizeOutOfRange => 12,
            Refusal::InvalidRecord => 15,
        }
    }
}

/// What an advance did (rule 8.1).
#[derive(Clone, Copy)]
pub struct Advanced {
    /// The peers whose sent timers fired.
    pub sent: Bitmap,
    /// The peers whose held timers fired.
    pub held: Bitmap,
    /// The quiet-end line (rule 8.4), where quiet time ended.
    pub quiet_end: Option<Line>,
    /// The timers of both sets as a list in the firing order (rule 8.3).
    pub fired: FiredTimers,
}

/// The answer of a call by value: its outcome, and the next record. Where it is refused, that is
/// the record that went in (rule 10.31); of a refused set-up, one that every call refuses (rule
/// 6.3).
#[derive(Clone, Drop)]
pub struct Answered<T> {
    pub outcome: Result<T, Refusal>,
    pub manager: Manager,
}

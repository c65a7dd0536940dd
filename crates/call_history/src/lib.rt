// A list of calls on one manager, each on the record that the last one returned or left, and what
// the log says of where they lead: the log theorem of this program (rules 11.1 to 11.6).
#![tactic(auto)]

ghost use Rattle.std.specs.Prelude.{◌≡◌, ◌≤◌, map, set, Some, IfOk, IfErr, Ok, Err};
ghost use Rattle.lease.specs.SetUp.{setup_of};
ghost use Rattle.lease.specs.Sets.{one};
ghost use Rattle.lease_log.specs.Log.{is_promise, promise_lines};
ghost use Rattle.lease_log.specs.LogTheorem.{Typed, AllTyped, run_of, LogTheorem};
ghost use Rattle.lease_log.specs.Program.{Answers};
ghost use Rattle.call_history.specs.History.{said, after_call, answer_of, after_calls, answers_from, kept, promises_in, promises_from, ProgramLogTheorem};
ghost use Rattle.call_history.specs.declared.Call.TheVariants as C;
ghost use Rattle.call_history.specs.declared.Answer.TheVariants as A;

use engine::set_up::new_and_setup;
use lease::{
    Advanced, Answered, Bitmap, LeaseAction, LeaseMsg, LeaseNotice, LeaseNum, Line, Lines, Manager,
    Reading, Refusal, ReplicaId,
};
use leaseman::clock::{advance, set_drift};
use leaseman::lent::{add_notice_lent, advance_lent};
use leaseman::notice::add_notice;
use leaseman::outer::{assume_unknown_grants, attempt_refresh};
use leaseman::questions::{grant_set, lease_cnt, lease_set, time_left};

/// How a call gets the record (rule 8.7).
#[derive(Clone, Copy)]
pub enum Passing {
    ByValue,
    Lent,
}

/// A call on a manager's record, by its arguments other than the record.
#[derive(Clone, Copy)]
pub enum Call {
    Notice(Passing, LeaseNum, LeaseNotice),
    Advance(Passing, Reading),
    QuietStart,
    Refresh(Option<Bitmap>),
    Drift(Option<i8>),
    GrantSet,
    LeaseSet,
    LeaseCnt,
    TimeLeft(ReplicaId),
}

/// What a call answers.
#[derive(Clone, Copy)]
pub enum Answer {
    /// A notice's lines.
    Acted(Result<Lines, Refusal>),
    /// What advance did.
    Fired(Result<Advanced, Refusal>),
    /// A quiet start or a drift setting.
    Done(Result<(), Refusal>),
    /// The set of a refresh, the grant set or the lease set.
    Set(Result<Bitmap, Refusal>),
    /// The lease count.
    Count(Result<u64, Refusal>),
    /// Time left, in ms.
    Left(Result<Option<u64>, Refusal>),
}

/// What a call answers, and the record that it returned or left.
#[derive(Drop)]
pub struct Made {
    pub answer: Answer,
    pub manager: Manager,
}

/// The record that a list of calls leads to, and how many Promise lines they answered.
#[derive(Drop)]
pub struct Ran {
    pub manager: Manager,
    pub promise_lines: u64,
}

/// Where a list of calls leads to from set-up: the record, what the questions answer on it, and how
/// many Promise lines the calls answered.
#[derive(Drop)]
pub struct Ended {
    pub manager: Manager,
    pub grant_set: Result<Bitmap, Refusal>,
    pub lease_set: Result<Bitmap, Refusal>,
    pub lease_cnt: Result<u64, Refusal>,
    pub promise_lines: u64,
}

// A notice, passed either way.
fn notice_made(m: Manager, passing: Passing, num: LeaseNum, notice: LeaseNotice) -> Made
    ensures manager { result.manager ≡ after_call m (C.Notice passing num notice) }
    ensures answer { result.answer ≡ answer_of m (C.Notice passing num notice) }
{
    match passing {
        Passing::ByValue => {
            let a = add_notice(m, num, notice);
            Made {
                answer: Answer::Acted(a.outcome),
                manager: a.manager,
            }
        }
        Passing::Lent => {
            let mut manager = m;
            let outcome = add_notice_lent(&mut manager, num, notice);
            Made {
                answer: Answer::Acted(outcome),
                manager,
            }
        }
    }
}

// Advance, passed either way.
fn advance_made(m: Manager, passing: Passing, to: Reading) -> Made
    ensures manager { result.manager ≡ after_call m (C.Advance passing to) }
    ensures answer { result.answer ≡ answer_of m (C.Advance passing to) }
{
    match passing {
        Passing::ByValue => {
            let a = advance(m, to);
            Made {
                answer: Answer::Fired(a.outcome),
                manager: a.manager,
            }
        }
        Passing::Lent => {
            let mut manager = m;
            let outcome = advance_lent(&mut manager, to);
            Made {
                answer: Answer::Fired(outcome),
                manager,
            }
        }
    }
}

// A call that answers no more than that it is done.
fn plain_made(a: Answered<()>) -> Made
    ensures manager { result.manager ≡ a.manager }
    ensures answer { result.answer ≡ A.Done a.outcome }
{
    Made {
        answer: Answer::Done(a.outcome),
        manager: a.manager,
    }
}

// A refresh.
fn refresh_made(m: Manager, set: Option<Bitmap>) -> Made
    ensures manager { result.manager ≡ after_call m (C.Refresh set) }
    ensures answer { result.answer ≡ answer_of m (C.Refresh set) }
{
    let a = attempt_refresh(m, set);
    Made {
        answer: Answer::Set(a.outcome),
        manager: a.manager,
    }
}

// A question leaves the record as it is.
fn asked(manager: Manager, answer: Answer) -> Made
    ensures manager { result.manager ≡ manager }
    ensures answer { result.answer ≡ answer }
{
    Made { answer, manager }
}

// 1 for a Promise line (rule 11.2), else 0.
fn promise_line(line: Line) -> u64
    ensures value { result ≡ one (is_promise line.1) }
    ensures upper_bound { result ≤ 1 }
{
    u64::from(matches!(line.1, LeaseAction::SendLeaseMsg(_, LeaseMsg::Promise)))
}

// How many Promise lines an answer has.
fn promises(answer: Answer) -> u64
    ensures value { result ≡ promises_in answer }
    ensures upper_bound { result ≤ 3 }
{
    match answer {
        Answer::Acted(Ok(Lines::One(a))) => promise_line(a),
        Answer::Acted(Ok(Lines::Two(a, b))) => promise_line(a) + promise_line(b),
        Answer::Acted(Ok(Lines::Three(a, b, c))) => {
            promise_line(a) + (promise_line(b) + promise_line(c))
        }
        _ => 0,
    }
}

/// Makes a call on a record. A question leaves the record as it is (rule 9.5).
pub fn make(m: Manager, call: Call) -> Made
    ensures manager { result.manager ≡ after_call m call }
    ensures answer { result.answer ≡ answer_of m call }
    ensures typed { Typed (said call) }
{
    match call {
        Call::Notice(passing, num, notice) => notice_made(m, passing, num, notice),
        Call::Advance(passing, to) => advance_made(m, passing, to),
        Call::QuietStart => plain_made(assume_unknown_grants(m)),
        Call::Refresh(set) => refresh_made(m, set),
        Call::Drift(setting) => plain_made(set_drift(m, setting)),
        Call::GrantSet => asked(m, Answer::Set(grant_set(m))),
        Call::LeaseSet => asked(m, Answer::Set(lease_set(m))),
        Call::LeaseCnt => asked(m, Answer::Count(lease_cnt(m))),
        Call::TimeLeft(id) => asked(m, Answer::Left(time_left(m, id))),
    }
}

// Puts an answer into its place, if there is one.
fn keep(answers: &mut [Option<Answer>], place: usize, answer: Answer)
    ensures { answers.new ≡ set answers.old place (Some answer) }
{
    if place < answers.len() {
        answers[place] = Some(answer);
    }
}

/// Makes the calls in order, each on the record that the last one returned or left. The answers go
/// into `answers` in order, as far as it has places; places that are left over stay.
pub fn run(m: Manager, calls: &[Call], answers: &mut [Option<Answer>]) -> Ran
    ensures manager { result.manager ≡ after_calls m calls.now }
    ensures answers { answers.new ≡ kept (answers_from m calls.now) answers.old }
    ensures promise_lines { result.promise_lines ≡ promises_from m calls.now }
    ensures typed { AllTyped (map said calls.now) }
{
    let mut manager = m;
    let mut promise_lines: u64 = 0;
    for (place, call) in calls.iter().enumerate() {
        let made = make(manager, *call);
        manager = made.manager;
        promise_lines += promises(made.answer);
        keep(answers, place, made.answer);
    }
    Ran {
        manager,
        promise_lines,
    }
}

/// Makes the calls from set-up; `t` and `heartbeat` in ns. THE LOG THEOREM of this program (rule
/// 11.5): what the grant set, the lease set and the lease count then are, and how many Promise
/// lines were answered, is what the log of the rules' actions says. Refused as set-up is (rules
/// 10.1 to 10.5), and then no call is made.
pub fn run_from_set_up(
    me: ReplicaId,
    population: usize,
    t: u64,
    heartbeat: u64,
    now: Reading,
    calls: &[Call],
) -> Result<Ended, Refusal>
    ensures log { IfOk result (λ e. Answers me population t (run_of me population t heartbeat now (map said calls.now)).journal e.grant_set e.lease_set e.lease_cnt) }
    ensures promise_lines { IfOk result (λ e. e.promise_lines ≡ promise_lines (run_of me population t heartbeat now (map said calls.now)).journal.log) }
    ensures left { IfOk result (λ e. e.manager ≡ after_calls (setup_of me population t heartbeat now).manager calls.now) }
    ensures accepted { IfOk result (λ e. (setup_of me population t heartbeat now).outcome ≡ Ok tt) }
    ensures refused { IfErr result (λ k. (setup_of me population t heartbeat now).outcome ≡ Err k) }
{
    let start = new_and_setup(me, population, t, heartbeat, now);
    start.outcome?;
    let ran = run(start.manager, calls, &mut []);
    let manager = ran.manager;
    Ok(Ended {
        manager,
        grant_set: grant_set(manager),
        lease_set: lease_set(manager),
        lease_cnt: lease_cnt(manager),
        promise_lines: ran.promise_lines,
    })
}

/// The log theorem (rule 11.5) for every list of calls from every accepted set-up: of the rules,
/// and of this program's calls, which lead through every list.
pub fn log_decides()
    ensures rules { LogTheorem }
    ensures program { ProgramLogTheorem }
{}

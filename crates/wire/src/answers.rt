// Answers as the record that crosses to C (rule 13.4): 0 or the number of a refusal, at most three lines of plain numbers, and the timers
// that fired. An answer is begun once, with no line, and what the call gives is written into it. Every contract says that what comes of it
// equals a definition of specs/Answers.

ghost use Rattle.std.specs.Prelude.{◌≡◌};
ghost use Rattle.lease.specs.Refusals.{refusal_number};
ghost use Rattle.wire.specs.Answers.{refused_answer, no_lines, one_line, two_lines, lines_answer, notice_answer, fired_answer, advance_answer, plain_answer, set_answer, count_answer, time_left_answer};
ghost use Rattle.wire.specs.Refusals.{call_refusal_number, CallRefusalOf};

use crate::lines::{LineC, count_line, fired_line, line_of, no_line, set_line, time_left_line};
use lease::{Advanced, Bitmap, FiredTimers, Line, Lines, Refusal};

/// An answer. `refused` is 0, or the number of the refusal; `count` is how many lines there are, and the places behind them are zeros. No
/// call but advance lists a timer.
#[repr(C)]
#[derive(Clone, Copy)]
pub struct AnswerC {
    pub refused: u64,
    pub count: u64,
    pub one: LineC,
    pub two: LineC,
    pub three: LineC,
    pub fired: FiredTimers,
}

/// Why a call from the host is refused. C gets the number alone, so there is no text.
#[derive(Clone, Copy, PartialEq, Eq)]
pub enum CallRefusal {
    /// The card is no call (rule 10.22).
    NoCall,
    /// Refused by the manager.
    Refused(Refusal),
}

impl CallRefusal {
    /// The number that crosses to C: 22, or the manager's.
    pub fn number(self) -> u8
        ensures { result ≡ call_refusal_number self }
    {
        match self {
            CallRefusal::NoCall => 22,
            CallRefusal::Refused(refusal) => refusal.number(),
        }
    }
}

impl From<Refusal> for CallRefusal {
    ghost from_gives = { CallRefusalOf };

    fn from(own: Refusal) -> CallRefusal {
        CallRefusal::Refused(own)
    }
}

impl AnswerC {
    /// Accepted, with no line: what every answer begins as.
    #[tactic(auto, unfolding(crate::specs::Answers::no_lines))]
    pub fn no_lines() -> AnswerC
        ensures { result ≡ no_lines }
    {
        let none = no_line();
        AnswerC {
            refused: 0,
            count: 0,
            one: none,
            two: none,
            three: none,
            fired: FiredTimers::none(),
        }
    }

    /// Refused, with no line and no timer.
    #[tactic(auto, unfolding(crate::specs::Answers::refused_answer, crate::specs::Answers::no_lines))]
    pub fn refuse(&mut self, refusal: CallRefusal)
        requires { self.old ≡ no_lines }
        ensures { self.new ≡ refused_answer (call_refusal_number refusal) }
    {
        self.refused = u64::from(refusal.number());
    }

    // Refused by the manager.
    fn refuse_by(&mut self, refusal: Refusal)
        requires { self.old ≡ no_lines }
        ensures { self.new ≡ refused_answer (refusal_number refusal) }
    {
        self.refuse(CallRefusal::from(refusal));
    }

    #[tactic(auto, unfolding(crate::specs::Answers::one_line, crate::specs::Answers::no_lines))]
    fn put_line(&mut self, line: LineC)
        requires { self.old ≡ no_lines }
        ensures { self.new ≡ one_line line }
    {
        self.count = 1;
        self.one = line;
    }

    #[tactic(auto, unfolding(crate::specs::Answers::two_lines, crate::specs::Answers::no_lines))]
    fn put_two(&mut self, one: LineC, two: LineC)
        requires { self.old ≡ no_lines }
        ensures { self.new ≡ two_lines one two }
    {
        self.count = 2;
        self.one = one;
        self.two = two;
    }

    #[tactic(auto, unfolding(crate::specs::Answers::lines_answer, crate::specs::Answers::no_lines))]
    fn put_lines(&mut self, lines: Lines)
        requires { self.old ≡ no_lines }
        ensures { self.new ≡ lines_answer lines }
    {
        match lines {
            Lines::None => {}
            Lines::One(a) => self.put_line(line_of(a)),
            Lines::Two(a, b) => self.put_two(line_of(a), line_of(b)),
            Lines::Three(a, b, c) => {
                self.count = 3;
                self.one = line_of(a);
                self.two = line_of(b);
                self.three = line_of(c);
            }
        }
    }

    /// To a notice: its lines in order (rule 7.14).
    #[tactic(auto, unfolding(crate::specs::Answers::notice_answer))]
    pub fn put_notice(&mut self, outcome: Result<Lines, Refusal>)
        requires { self.old ≡ no_lines }
        ensures { self.new ≡ notice_answer outcome }
    {
        match outcome {
            Ok(lines) => self.put_lines(lines),
            Err(refusal) => self.refuse_by(refusal),
        }
    }

    // What fired, and the quiet-end line after it, if there is one.
    #[tactic(auto, unfolding(crate::specs::Answers::fired_answer))]
    fn put_fired(&mut self, sent: Bitmap, held: Bitmap, quiet_end: Option<Line>)
        requires { self.old ≡ no_lines }
        ensures { self.new ≡ fired_answer sent held quiet_end }
    {
        let fired = fired_line(sent, held);
        match quiet_end {
            None => self.put_line(fired),
            Some(line) => self.put_two(fired, line_of(line)),
        }
    }

    /// To advance: what fired, the quiet-end line behind it, and the timers in order (rules 8.1 to 8.4).
    #[tactic(auto, unfolding(crate::specs::Answers::advance_answer, crate::specs::Answers::advance_lines, crate::specs::Answers::refused_answer))]
    pub fn put_advance(&mut self, outcome: Result<Advanced, Refusal>)
        requires { self.old ≡ no_lines }
        ensures { self.new ≡ advance_answer outcome }
    {
        match outcome {
            Ok(a) => {
                self.put_fired(a.sent, a.held, a.quiet_end);
                self.fired = a.fired;
            }
            Err(refusal) => self.refuse_by(refusal),
        }
    }

    /// To set-up, quiet start and a drift setting, which say nothing but whether they are refused.
    #[tactic(auto, unfolding(crate::specs::Answers::plain_answer))]
    pub fn put_plain(&mut self, outcome: Result<(), Refusal>)
        requires { self.old ≡ no_lines }
        ensures { self.new ≡ plain_answer outcome }
    {
        if let Err(refusal) = outcome {
            self.refuse_by(refusal);
        }
    }

    /// To refresh, grant set and lease set: one set.
    #[tactic(auto, unfolding(crate::specs::Answers::set_answer))]
    pub fn put_set(&mut self, outcome: Result<Bitmap, Refusal>)
        requires { self.old ≡ no_lines }
        ensures { self.new ≡ set_answer outcome }
    {
        match outcome {
            Ok(set) => self.put_line(set_line(set)),
            Err(refusal) => self.refuse_by(refusal),
        }
    }

    /// To lease count.
    #[tactic(auto, unfolding(crate::specs::Answers::count_answer))]
    pub fn put_count(&mut self, outcome: Result<u64, Refusal>)
        requires { self.old ≡ no_lines }
        ensures { self.new ≡ count_answer outcome }
    {
        match outcome {
            Ok(n) => self.put_line(count_line(n)),
            Err(refusal) => self.refuse_by(refusal),
        }
    }

    /// To time left, in ms.
    #[tactic(auto, unfolding(crate::specs::Answers::time_left_answer))]
    pub fn put_time_left(&mut self, outcome: Result<Option<u64>, Refusal>)
        requires { self.old ≡ no_lines }
        ensures { self.new ≡ time_left_answer outcome }
    {
        match outcome {
            Ok(left) => self.put_line(time_left_line(left)),
            Err(refusal) => self.refuse_by(refusal),
        }
    }
}

// ---- each as a value: an answer that is begun here and handed back

/// Refused, with no line and no timer.
pub fn refused_answer(refusal: CallRefusal) -> AnswerC
    ensures { result ≡ refused_answer (call_refusal_number refusal) }
{
    let mut answer = AnswerC::no_lines();
    answer.refuse(refusal);
    answer
}

/// Accepted, with no line.
pub fn no_lines() -> AnswerC
    ensures { result ≡ no_lines }
{
    AnswerC::no_lines()
}

/// Accepted, with one line.
pub fn one_line(line: LineC) -> AnswerC
    ensures { result ≡ one_line line }
{
    let mut answer = AnswerC::no_lines();
    answer.put_line(line);
    answer
}

/// The answer to a notice: its lines in order (rule 7.14).
pub fn notice_answer(outcome: Result<Lines, Refusal>) -> AnswerC
    ensures { result ≡ notice_answer outcome }
{
    let mut answer = AnswerC::no_lines();
    answer.put_notice(outcome);
    answer
}

/// The answer to advance: what fired, the quiet-end line behind it, and the timers in order (rules 8.1 to 8.4).
pub fn advance_answer(outcome: Result<Advanced, Refusal>) -> AnswerC
    ensures { result ≡ advance_answer outcome }
{
    let mut answer = AnswerC::no_lines();
    answer.put_advance(outcome);
    answer
}

/// The answer to set-up, quiet start and a drift setting, which say nothing but whether they are refused.
pub fn plain_answer(outcome: Result<(), Refusal>) -> AnswerC
    ensures { result ≡ plain_answer outcome }
{
    let mut answer = AnswerC::no_lines();
    answer.put_plain(outcome);
    answer
}

/// The answer to refresh, grant set and lease set: one set.
pub fn set_answer(outcome: Result<Bitmap, Refusal>) -> AnswerC
    ensures { result ≡ set_answer outcome }
{
    let mut answer = AnswerC::no_lines();
    answer.put_set(outcome);
    answer
}

/// The answer to lease count.
pub fn count_answer(outcome: Result<u64, Refusal>) -> AnswerC
    ensures { result ≡ count_answer outcome }
{
    let mut answer = AnswerC::no_lines();
    answer.put_count(outcome);
    answer
}

/// The answer to time left, in ms.
pub fn time_left_answer(outcome: Result<Option<u64>, Refusal>) -> AnswerC
    ensures { result ≡ time_left_answer outcome }
{
    let mut answer = AnswerC::no_lines();
    answer.put_time_left(outcome);
    answer
}

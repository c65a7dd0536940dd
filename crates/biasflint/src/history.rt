// A list of cards on one lent record, each by the exported call, and what the log of the rules' actions says of where they lead
// (rules 11.5, 13.6).

ghost use Rattle.std.specs.Prelude.{◌≡◌, ◌≤◌, ◌∷◌, IfSome, IfNone, is_some};
ghost use Rattle.lease.specs.Sets.{one};
ghost use Rattle.biasflint.specs.Calls.{call_of};
ghost use Rattle.biasflint.specs.History.{after_cards, is_promise_line, promises_in, promises_from, is_set_up, history_of, AnswersByLog};
ghost use Rattle.wire.specs.Events.{card};

use crate::biasflint_call;
use wire::answers::AnswerC;
use wire::calls::{CallC, card};
use wire::flat::ManagerC;
use wire::lines::LineC;

/// What the record answers to cards of codes 12, 13 and 14 after a list of cards, and how many Promise lines the answers to the
/// list had.
#[derive(Clone, Copy)]
pub struct Ended {
    pub grant_set: AnswerC,
    pub lease_set: AnswerC,
    pub lease_cnt: AnswerC,
    pub promise_lines: u64,
}

// Whether a line is a Promise line, as a number.
fn promise_line(line: LineC) -> u64
    ensures value { result ≡ one (is_promise_line line) }
    ensures upper_bound { result ≤ 1 }
{
    u64::from(line.code == 4)
}

// How many Promise lines an answer has; the places behind its lines are zeros.
fn promises(answer: AnswerC) -> u64
    ensures value { result ≡ promises_in answer }
    ensures upper_bound { result ≤ 3 }
{
    promise_line(answer.one) + (promise_line(answer.two) + promise_line(answer.three))
}

/// Hands in the cards in order, each on the record that the last one left, and answers how many Promise lines their answers had.
/// A refused card, a question and a card that is no call leave the record as it is, and the next card follows.
pub fn run_cards(m: &mut ManagerC, cards: &[CallC]) -> u64
    ensures left { m.new ≡ after_cards m.old cards.now }
    ensures promise_lines { result ≡ promises_from m.old cards.now }
{
    let mut promise_lines: u64 = 0;
    for card in cards {
        promise_lines += promises(biasflint_call(m, *card));
    }
    promise_lines
}

// The answer to the question of that code, which leaves the record.
fn ask(m: &mut ManagerC, code: u64) -> AnswerC
    ensures answer { result ≡ (call_of m.old (card code 0 0 0 0 0)).answer }
    ensures left { m.new ≡ (call_of m.old (card code 0 0 0 0 0)).manager }
{
    biasflint_call(m, card(code, 0, 0, 0, 0, 0))
}

/// From a set-up card on any record, then the cards: what the record answers in the end, by the log. None where the first card is
/// no set-up, or is refused; then the record is as it was lent.
pub fn run_from_set_up(m: &mut ManagerC, set_up: CallC, cards: &[CallC]) -> Option<Ended>
    ensures log { IfSome result (λ e. AnswersByLog (history_of set_up cards.now) e.grant_set e.lease_set e.lease_cnt e.promise_lines) }
    ensures left { IfSome result (λ e. m.new ≡ after_cards m.old (set_up ∷ cards.now)) }
    ensures accepted { is_some result ≡ is_set_up set_up }
    ensures unchanged { IfNone result (m.new ≡ m.old) }
{
    if set_up.code != 1 {
        return None;
    }
    let answer = biasflint_call(m, set_up);
    if answer.refused != 0 {
        return None;
    }
    let promise_lines = run_cards(m, cards);
    Some(Ended {
        grant_set: ask(m, 12),
        lease_set: ask(m, 13),
        lease_cnt: ask(m, 14),
        promise_lines,
    })
}

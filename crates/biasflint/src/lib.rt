// The host library: one call on a record that the host owns and lends (rule 13). `biasflint_c` is its archive for a host in Rust or C. f and
// c are the record and the card of `biasflint_call`.
#![tactic(auto)]

pub mod calls;
pub mod history;
pub mod laws;
pub mod questions;
pub mod rules;

ghost use Rattle.std.specs.Prelude.{◌≡◌, true, false, eqb};
ghost use Rattle.biasflint.specs.Calls.{outer_c, record_c, call_of};
ghost use Rattle.biasflint.specs.Numbers.{card_number};
ghost use Rattle.flat_engine.specs.FlatRows.{FlatSound};
ghost use Rattle.wire.specs.Answers.{no_lines};
ghost use Rattle.wire.specs.Cards.{is_call};
ghost use Rattle.wire.specs.Form.{is_record};

use crate::calls::{advance_c, drift_c, notice_c, quiet_c, refresh_c, setup_c};
use crate::questions::question_c;
use crate::rules::CalledC;
use flat_record::sound::is_sound;
use lease::Refusal;
use wire::answers::{AnswerC, CallRefusal};
use wire::calls::{CallC, is_call};
use wire::flat::ManagerC;

// Codes 9 to 11 and the questions'.
#[tactic(auto, using(crate::proofs::CallLaws::question_stays), unfolding(crate::specs::Calls::outer_c))]
fn outer_c(f: &mut ManagerC, c: CallC, answer: &mut AnswerC)
    requires sound { FlatSound f.old }
    requires begun { answer.old ≡ no_lines }
    ensures answer { answer.new ≡ (outer_c f.old c).answer }
    ensures left { f.new ≡ (outer_c f.old c).manager }
{
    match c.code {
        9 => quiet_c(f, answer),
        10 => refresh_c(f, c, answer),
        11 => drift_c(f, c, answer),
        _ => question_c(f, c, answer),
    }
}

// Every code but set-up's, on a record that refusal 15 lets through: 2 advance, 3 to 8 the notices, and the rest.
#[tactic(auto, unfolding(crate::specs::Calls::record_c))]
fn record_c(f: &mut ManagerC, c: CallC, answer: &mut AnswerC)
    requires sound { FlatSound f.old }
    requires begun { answer.old ≡ no_lines }
    ensures answer { answer.new ≡ (record_c f.old c).answer }
    ensures left { f.new ≡ (record_c f.old c).manager }
{
    match c.code {
        2 => advance_c(f, c, answer),
        0..=8 => notice_c(f, c, answer),
        _ => outer_c(f, c, answer),
    }
}

// Any call: what is no call is refused with 22; then, but for set-up, what is no manager's record with 15; then the rules decide (rule 13.5).
#[tactic(auto, unfolding(crate::specs::Calls::call_of))]
fn call_in_place(f: &mut ManagerC, c: CallC, answer: &mut AnswerC)
    requires { answer.old ≡ no_lines }
    ensures answer { answer.new ≡ (call_of f.old c).answer }
    ensures left { f.new ≡ (call_of f.old c).manager }
{
    if !is_call(c) {
        return answer.refuse(CallRefusal::NoCall);
    }
    if c.code == 1 {
        return setup_c(f, c, answer);
    }
    if !is_sound(f) {
        return answer.refuse(CallRefusal::from(Refusal::InvalidRecord));
    }
    record_c(f, c, answer);
}

/// Any call on a lent record: the host finds it as the call leaves it, and as it was where the call is refused.
pub fn biasflint_call(m: &mut ManagerC, card: CallC) -> AnswerC
    ensures answer { result ≡ (call_of m.old card).answer }
    ensures left { m.new ≡ (call_of m.old card).manager }
    ensures unchanged { eqb result.refused 0 ≡ false → m.new ≡ m.old }
    ensures no_call { is_call card ≡ false → result.refused ≡ 22 }
    ensures no_record { is_call card ≡ true → eqb card.code 1 ≡ false → is_record m.old ≡ false → result.refused ≡ 15 }
    ensures number { result.refused ≡ card_number m.old card }
{
    let mut answer = AnswerC::no_lines();
    call_in_place(m, card, &mut answer);
    answer
}

/// Any call, by value: the answer, and the record as the call leaves it, which is the one that went in where the call is refused.
pub fn call(f: ManagerC, c: CallC) -> CalledC
    ensures { result ≡ call_of f c }
{
    let mut manager = f;
    let answer = biasflint_call(&mut manager, c);
    CalledC { answer, manager }
}

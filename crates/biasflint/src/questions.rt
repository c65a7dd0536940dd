// The questions from the host, which only read the record (rule 9.5). f and c are the record and the card of `biasflint_call`. Every contract
// says that the answer is that of a definition of specs/Calls.

ghost use Rattle.std.specs.Prelude.{◌≡◌};
ghost use Rattle.biasflint.specs.Calls.{grant_set_c, lease_set_c, lease_cnt_c, time_left_c, question_c};
ghost use Rattle.wire.specs.Answers.{no_lines};
ghost use Rattle.flat_engine.specs.FlatRows.{FlatSound};

use flat_engine::calls::{grant_set, lease_cnt, lease_set, time_left};
use wire::answers::AnswerC;
use wire::calls::CallC;
use wire::flat::ManagerC;

#[tactic(auto, unfolding(crate::specs::Calls::grant_set_c, crate::specs::Calls::kept))]
fn grant_set_c(f: &ManagerC, answer: &mut AnswerC)
    requires sound { FlatSound f.now }
    requires begun { answer.old ≡ no_lines }
    ensures { answer.new ≡ (grant_set_c f.entry.now).answer }
{
    answer.put_set(grant_set(f));
}

#[tactic(auto, unfolding(crate::specs::Calls::lease_set_c, crate::specs::Calls::kept))]
fn lease_set_c(f: &ManagerC, answer: &mut AnswerC)
    requires sound { FlatSound f.now }
    requires begun { answer.old ≡ no_lines }
    ensures { answer.new ≡ (lease_set_c f.entry.now).answer }
{
    answer.put_set(lease_set(f));
}

#[tactic(auto, unfolding(crate::specs::Calls::lease_cnt_c, crate::specs::Calls::kept))]
fn lease_cnt_c(f: &ManagerC, answer: &mut AnswerC)
    requires sound { FlatSound f.now }
    requires begun { answer.old ≡ no_lines }
    ensures { answer.new ≡ (lease_cnt_c f.entry.now).answer }
{
    answer.put_count(lease_cnt(f));
}

// The id is cast: Rust has no `From` between usize and u64.
#[tactic(auto, unfolding(crate::specs::Calls::time_left_c, crate::specs::Calls::kept))]
fn time_left_c(f: &ManagerC, c: CallC, answer: &mut AnswerC)
    requires sound { FlatSound f.now }
    requires begun { answer.old ≡ no_lines }
    ensures { answer.new ≡ (time_left_c f.entry.now c).answer }
{
    answer.put_time_left(time_left(f, c.peer as usize));
}

/// Any question, by its code: 12 the grant set, 13 the lease set, 14 the lease count, else the ms left of the lease of peer (rule 9).
#[tactic(auto, unfolding(crate::specs::Calls::question_c))]
pub fn question_c(f: &ManagerC, c: CallC, answer: &mut AnswerC)
    requires sound { FlatSound f.now }
    requires begun { answer.old ≡ no_lines }
    ensures { answer.new ≡ (question_c f.entry.now c).answer }
{
    match c.code {
        12 => grant_set_c(f, answer),
        13 => lease_set_c(f, answer),
        14 => lease_cnt_c(f, answer),
        _ => time_left_c(f, c, answer),
    }
}

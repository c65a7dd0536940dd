// The archive for a host in Rust or C: biasflint's call on a lent record, under its C name (rule 13).
#![tactic(auto)]

ghost use Rattle.std.specs.Prelude.{◌≡◌};
ghost use Rattle.biasflint.specs.Calls.{call_of};

use wire::answers::AnswerC;
use wire::calls::CallC;
use wire::flat::ManagerC;

/// Any call on a lent record: the host finds it as the call leaves it. The record and the card may hold any numbers.
#[unsafe(no_mangle)]
pub extern "C" fn biasflint_call(m: &mut ManagerC, card: CallC) -> AnswerC
    ensures answer { result ≡ (call_of m.old card).answer }
    ensures left { m.new ≡ (call_of m.old card).manager }
{
    biasflint::biasflint_call(m, card)
}

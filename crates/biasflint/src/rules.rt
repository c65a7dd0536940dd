// What comes of a call from the host. The rules are in specs/Calls, what is claimed of them in specs/Claims.

use wire::answers::AnswerC;
use wire::flat::ManagerC;

/// The answer, and the record that the host finds.
#[derive(Clone, Copy)]
pub struct CalledC {
    pub answer: AnswerC,
    pub manager: ManagerC,
}

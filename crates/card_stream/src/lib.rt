// Event cards one after the other (rule 14.5): bytes to cards, cards to the session and its calls, and to the lines that they print, in fixed
// memory. The program replay but for its `main`.
#![tactic(auto)]

pub mod feed;
pub mod input;
pub mod laws;
pub mod partial;
pub mod printed;
pub mod reader;
pub mod replay;
pub mod session;

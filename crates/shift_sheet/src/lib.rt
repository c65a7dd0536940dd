// The shift sheet of the session that event cards leave (section 15), and the program sheet but for its `main`.
#![tactic(auto)]

pub mod laws;
pub mod program;
pub mod rows;

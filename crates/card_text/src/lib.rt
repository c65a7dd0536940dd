// Event cards and output lines as text: numbers in fixed columns of bytes, a card's six and a line's five, both ways (rules 14.1, 14.4).
#![tactic(auto)]

pub mod card;
pub mod columns;
pub mod laws;
pub mod line;

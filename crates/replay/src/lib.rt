// What the programs share that replay a file of answers, a case to a line: the numbers of a line, and the tally.
#![tactic(auto)]

pub mod tally;
pub mod word;

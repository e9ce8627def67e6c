// Times in minutes since epoch, without orbits: where a state may stand, what may be asked of it, and whether a step is due.
#![tactic(auto)]

pub mod time;

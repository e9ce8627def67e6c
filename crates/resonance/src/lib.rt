// The resonance integrator of deep_space.rs as a value: times, rates, the state with its step, and
// the stepping of an ask.
#![tactic(auto)]

pub mod advance;
pub mod ask;
pub mod state;

// Model, class and constants of an orbit: what the crates above share.
#![tactic(auto)]

pub mod class;
pub mod model;
pub mod propagator;

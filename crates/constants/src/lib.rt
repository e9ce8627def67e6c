// The constants of an orbit: solar and lunar geometry, and the build. `constants` of deep_space.rs.
#![tactic(auto)]

pub mod build;
pub mod error;
pub mod geometry;
pub mod given;
pub mod longitude;

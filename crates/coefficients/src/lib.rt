// The coefficients of the two resonances, from the orbit, the sine of its inclination, p₁ and a₀:
// part of `constants` of deep_space.rs.
#![tactic(auto)]

pub mod eccentricity;
pub mod half_day;
pub mod one_day;

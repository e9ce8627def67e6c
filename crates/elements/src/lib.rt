// The elements of an orbit at a time from what its mean motion is: `deep_space_orbital_elements` of
// deep_space.rs past the resonance integrator.
#![tactic(auto)]

pub mod elements;

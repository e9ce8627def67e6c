// What is proved of the stepping beyond the contracts of crate resonance: exact times, steps that compose and are reported, and
// the marked examples of orbits. Edits of resonance do not prove these again.
#![tactic(auto)]

// The C interface. A call returns document 01's number, 0 where it answers; a result goes through a
// pointer, which a refused call leaves as it was.
#![tactic(auto)]

mod answer;
pub mod float_calls;
pub mod orbit_calls;
pub mod store_calls;

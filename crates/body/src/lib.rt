// A record of the store: constants with none or a state, as the bytes of a body and back, and what is
// checked of them. It knows nothing of the file that a body stands in.
#![tactic(auto)]

pub mod bytes;
pub mod examine;
pub mod floats_at;
pub mod read;

// Float functions that the language lacks: each total, each equal to its definition in specs/.
#![tactic(auto)]

pub mod atan;
pub mod finite;
pub mod floor;
pub mod power;
pub mod remainder;
pub mod root;
pub mod trig;

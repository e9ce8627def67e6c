// The store on disk: a satellite's constants and state saved into a file of records, and restored
// from it. What a file is, is crate contents'; what a record is, crate body's.
#![tactic(auto)]

pub mod restore;
pub mod save;

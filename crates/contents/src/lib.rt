// The lower half of the store: a file of records by satellite, contents first and bodies after. Bodies are bytes here and no more.
#![tactic(auto)]

pub mod find;
pub mod format;
pub mod little_endian;
pub mod save;

// Line two of a two-line element set: its fields, and the reader. Whole numbers only.
#![tactic(auto)]

pub mod fields;
pub mod read;

ghost use Rattle.std.specs.Prelude.{◌≡◌, true};
ghost use Rattle.line.specs.Examples.{Examples};

// Holds what is proved of these definitions: the worked examples.
pub fn promised() -> bool
    ensures { (result ≡ true) × Examples }
{
    true
}

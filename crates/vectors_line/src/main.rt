// Replays data/lines.txt on the crates `line` and `line_write`: a record to a line, with the answers that it must give. Writes how many records
// passed, and the first that did not.
#![tactic(auto)]

mod reads;
mod text;
mod writes;

use replay::tally::Tally;
use std::io::Read;
use std::{fs, io};

// A file that is longer is cut, and its tally falls short.
const ROOM: u64 = 524288;

// Whether the calls that the record names answer what it says.
fn passes(line: &[u8]) -> Option<bool> {
    match line.first()? {
        b'r' => reads::is_read(line),
        b'x' => reads::is_refused(line),
        b'c' => reads::in_columns(line),
        b'a' => reads::in_bytes(line),
        b'w' => writes::is_written(line),
        _ => None,
    }
}

// (Its like is in vectors_floats: in the library they share, the loop would need a clause on the closure
// that judges a line.)
fn replay(rt: &impl Print, text: &[u8]) -> io::Result<()> {
    let mut tally = Tally::default();
    for line in text.split(|b| *b == b'\n') {
        if !line.is_empty() && !line.starts_with(b"#") {
            tally.count(rt, line, passes(line).unwrap_or(false))?;
        }
    }
    let Tally { passed, total } = tally;
    println!(rt; "line {passed} passed of {total}")
}

// The same four lines in four programs: they take the heap, which the library that these share may not.
fn main(rt: HostRuntime) -> io::Result<()> {
    let mut text = Vec::with_capacity(rt.alloc(), ROOM as usize)?;
    let file = fs::open(&rt, "lines.txt")?;
    file.take(ROOM).read_to_end(&mut text)?;
    replay(&rt, &text)
}

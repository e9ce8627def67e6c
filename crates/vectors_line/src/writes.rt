// Records of lines that are written.
use crate::text::{hex, numbers};
use line_write::{WriteError, write};

// What stands in a buffer that a write has not touched.
const FRESH: u8 = 0x55;

// Whether the buffer is as it was from a place on.
fn is_kept(out: &[u8], from: usize) -> bool {
    out.iter().skip(from).all(|b| *b == FRESH)
}

// w: room, eight numbers, and what a write answers: D and the line, S for 19, or the place of a field.
pub fn is_written(line: &[u8]) -> Option<bool> {
    let mut out = [FRESH; 100];
    let room = out.get_mut(..hex(line, 2..4)? as usize)?;
    Some(match write(numbers(line.get(5..92)?), room) {
        Ok(()) => {
            line.get(93) == Some(&b'D') && line.get(94..163) == out.get(..69) && is_kept(&out, 69)
        }
        Err(WriteError::OutputShort) => line.get(93) == Some(&b'S') && is_kept(&out, 0),
        Err(WriteError::DoesNotFit(name)) => {
            hex(line, 93..94)? == u64::from(name.place()) && is_kept(&out, 0)
        }
    })
}

// Records of lines that are read.
use crate::text::{hex, numbers};
use line::fields::Numbers;
use line::read::{LineError, read};

// r: eight numbers, and the line that is read as these.
pub fn is_read(line: &[u8]) -> Option<bool> {
    let text = line.get(90..)?;
    Some(read(text) == Ok(numbers(&line[2..89])))
}

// x: a fault, and the line that has it.
pub fn is_refused(line: &[u8]) -> Option<bool> {
    let error = read(line.get(7..)?).err()?;
    let column = match error {
        LineError::BadColumn(k) => k as u64,
        _ => 0,
    };
    Some(hex(line, 2..3)? == u64::from(error.number()) && hex(line, 4..6)? == column)
}

// An answer as one byte: 0 for a line that is read, the fault's place, or for a bad column a letter, a for this one, b for the next.
fn letter(answer: Result<Numbers, LineError>, column: usize) -> u8 {
    match answer {
        Ok(_) => b'0',
        Err(LineError::BadColumn(k)) => match k.checked_sub(column) {
            Some(past @ 0..26) => b'a' + past as u8,
            _ => b'?',
        },
        Err(error) => b'0' + error.number(),
    }
}

// The answer to the line with another byte in a column and this check digit, or None where there is no such column.
fn answer_with(mut line: [u8; 69], column: usize, b: u8, check: u8) -> Option<u8> {
    line[68] = check;
    *line.get_mut(column.checked_sub(1)?)? = b;
    Some(letter(read(&line), column))
}

// c: a byte, a line, and the answers and check digits with the byte in each of the columns 1 to 68.
pub fn in_columns(line: &[u8]) -> Option<bool> {
    let line = line.as_array::<212>()?;
    let b = u8::try_from(hex(line, 2..4)?).ok()?;
    let text = *line[5..74].as_array::<69>()?;
    let mut cases = (1..69).zip(&line[75..143]).zip(&line[144..]);
    Some(cases.all(|((column, answer), check)| {
        answer_with(text, column, b, *check) == Some(*answer)
    }))
}

// a: a column, a line, and the answers and check digits with each of the 256 bytes in the column.
pub fn in_bytes(line: &[u8]) -> Option<bool> {
    let line = line.as_array::<588>()?;
    let column = hex(line, 2..4)? as usize;
    let text = *line[5..74].as_array::<69>()?;
    let mut cases = (0..=255).zip(&line[75..331]).zip(&line[332..]);
    Some(cases.all(|((b, answer), check)| {
        answer_with(text, column, b, *check) == Some(*answer)
    }))
}

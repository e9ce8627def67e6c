// Replays data/store.txt on the store: a restore or a save to a line, with the refusal number and what it
// must answer. Writes how many cases passed, and the first that did not.
#![tactic(auto)]

use body::examine::Record;
use floats::finite::{bits_of, of_bits};
use orbit::propagator::Constants;
use record::{constants_of, kind_of, numbers_of};
use replay::tally::Tally;
use replay::word::{in_decimal, value};
use resonance::state::ResonanceState;
use std::alloc::{AllocError, Global};
use std::io::Read;
use std::{fs, io};
use store::restore::{RestoreError, restore};
use store::save::save;

// A file that is longer is cut, and its tally falls short.
const ROOM: u64 = 1048576;

// What the bytes of an output are before a save.
const UNTOUCHED: u8 = 0xA5;

// ---- reading a line

// The number of a word. The NaN 7FF8000000000001 is none: a line that has it does not pass, as ever.
fn number(word: &[u8]) -> Option<u64> {
    match word {
        [] | b"7FF8000000000001" => None,
        _ => value(word),
    }
}

// The numbers of at most 40 words.
fn read_numbers(alloc: Global, words: &[u8]) -> Result<Option<Vec<u64>>, AllocError> {
    let words = words.split(|b| *b == b' ').take(41);
    let numbers: Option<Vec<u64>> = words.map(number).collect(alloc)?;
    Ok(numbers.filter(|n| n.len() <= 40))
}

// The byte of two digits.
fn byte(digits: &[u8]) -> Option<u8> {
    let digits = digits.as_array::<2>()?;
    u8::try_from(value(digits)?).ok()
}

// At most 4096 bytes, two digits each.
fn read_bytes(alloc: Global, digits: &[u8]) -> Result<Option<Vec<u8>>, AllocError> {
    let bytes: Option<Vec<u8>> = digits.chunks(2).take(4097).map(byte).collect(alloc)?;
    Ok(bytes.filter(|b| b.len() <= 4096))
}

// ---- a record: kind, flag, 34 numbers, 1 with a state or 0, the state

fn read_record(alloc: Global, words: &[u8]) -> Result<Option<[u64; 40]>, AllocError> {
    let numbers = read_numbers(alloc, words)?;
    Ok(numbers.and_then(|n| n.as_array::<40>().copied()))
}

// The record with other numbers at some places: pairs of a place and its number.
fn changed(record: [u64; 40], changes: &[u64]) -> Option<[u64; 40]> {
    let mut changed = record;
    for change in changes.chunks(2) {
        let [place, number] = change else { return None };
        *changed.get_mut(usize::try_from(*place).ok()?)? = *number;
    }
    Some(changed)
}

// Constants and state of a record whose kind, flag and 1 with a state are such numbers.
fn split_record(record: &[u64; 40]) -> Option<(Constants, Option<ResonanceState>)> {
    let ([kind, flag], rest) = record.split_first_chunk::<2>()?;
    let (numbers, rest) = rest.split_first_chunk::<34>()?;
    let [held, t, mean_motion, lambda] = rest else {
        return None;
    };
    if *kind > 2 || *flag > 1 || *held > 1 {
        return None;
    }
    let constants = constants_of(
        u32::try_from(*kind).ok()?,
        *flag == 1,
        &numbers.map(of_bits),
    );
    let state = ResonanceState {
        t: of_bits(*t),
        mean_motion: of_bits(*mean_motion),
        lambda: of_bits(*lambda),
    };
    Some((constants, (*held == 1).then_some(state)))
}

// 1 and the state, or 0 and three zeros.
fn told_state(state: Option<ResonanceState>) -> [u64; 4] {
    match state {
        None => [0; 4],
        Some(s) => [1, bits_of(s.t), bits_of(s.mean_motion), bits_of(s.lambda)],
    }
}

fn is_told(record: &[u64; 40], c: Constants, state: Option<ResonanceState>) -> Option<bool> {
    let rest = record
        .strip_prefix(&[kind_of(c).into(), c.afspc_compatibility_mode.into()])?
        .strip_prefix(&numbers_of(c).map(bits_of))?
        .strip_prefix(&told_state(state))?;
    Some(rest.is_empty())
}

// ---- one case: whether the call answers what the words tell, and None where they tell no case
// (File, record and words come one by one: `cut`, `byte` and `eight` hand on another file and other words.)

// Whether a restore answers what words say: satellite; refusal, steps.
fn restore_passes(file: &[u8], record: Option<[u64; 40]>, words: &[u64]) -> Option<bool> {
    let [satellite, number, steps, changes @ ..] = words else {
        return None;
    };
    let answers = |refusal: u32, made: u32| {
        *number == in_decimal(refusal) && *steps == made.into()
    };
    Some(match restore(file, u32::try_from(*satellite).ok()?) {
        Ok(
            Record {
                constants,
                state,
                steps,
            },
        ) => answers(0, steps) && is_told(&changed(record?, changes)?, constants, state)?,
        // a refusal tells no record
        Err(_) if !changes.is_empty() => false,
        Err(e @ RestoreError::StateWrong { steps }) => answers(e.number(), steps),
        Err(e) => answers(e.number(), 0),
    })
}

// cut: length
fn cut_passes(file: &[u8], record: Option<[u64; 40]>, words: &[u64]) -> Option<bool> {
    let (n, words) = words.split_first()?;
    restore_passes(file.get(..usize::try_from(*n).ok()?)?, record, words)
}

// byte: offset, byte; at the end of the file it is one more
// The damaged copy is an array here and below: one in a Vec may fail.
fn byte_passes(file: &[u8], record: Option<[u64; 40]>, words: &[u64]) -> Option<bool> {
    let [at, byte, words @ ..] = words else {
        return None;
    };
    let at = usize::try_from(*at).ok()?;
    let mut room = [0; 4096];
    room.get_mut(..file.len())?.copy_from_slice(file);
    *room.get_mut(at)? = u8::try_from(*byte).ok()?;
    if at > file.len() {
        return None;
    }
    restore_passes(&room[..file.len().max(at + 1)], record, words)
}

// eight: offset, the eight bytes as a number
fn eight_passes(file: &[u8], record: Option<[u64; 40]>, words: &[u64]) -> Option<bool> {
    let [at, eight, words @ ..] = words else {
        return None;
    };
    let at = usize::try_from(*at).ok()?;
    let mut room = [0; 4096];
    let damaged = room.get_mut(..file.len())?;
    damaged.copy_from_slice(file);
    damaged
        .get_mut(at..at.checked_add(8)?)?
        .copy_from_slice(&eight.to_le_bytes());
    restore_passes(damaged, record, words)
}

// save: satellite, length of the output; refusal, and places of the record with their numbers
fn save_passes(
    file: &[u8],
    new: Option<&[u8]>,
    record: Option<[u64; 40]>,
    words: &[u64],
) -> Option<bool> {
    let [satellite, room, number, changes @ ..] = words else {
        return None;
    };
    let satellite = u32::try_from(*satellite).ok()?;
    let (constants, state) = split_record(&changed(record?, changes)?)?;
    let mut out = [UNTOUCHED; 4096];
    let output = out.get_mut(..usize::try_from(*room).ok()?)?;
    let (refusal, size) = match save(file, output, satellite, constants, state) {
        Ok(size) => (0, size),
        Err(e) => (e.number(), 0),
    };
    let (written, rest) = out.split_at_checked(size)?;
    let told = if refusal == 0 { new? } else { &[] };
    // as slices: byte by byte, by `all`, this took a fifth of the program's instructions
    let is_rest_untouched = [UNTOUCHED; 4096].get(..rest.len()) == Some(rest);
    Some(*number == in_decimal(refusal) && written == told && is_rest_untouched)
}

// ---- the file

// What holds from a line on, where it could be read.
#[derive(Default, Drop)]
struct Held {
    file: Option<Vec<u8>>,
    new: Option<Vec<u8>>,
    record: Option<[u64; 40]>,
}

impl Held {
    // Whether the line is no case: a remark, or what holds from now on, which is taken.
    fn takes(&mut self, alloc: Global, line: &[u8]) -> Result<bool, AllocError> {
        if let Some(digits) = line.strip_prefix(b"file ") {
            self.file = read_bytes(alloc, digits)?;
        } else if let Some(digits) = line.strip_prefix(b"new ") {
            self.new = read_bytes(alloc, digits)?;
        } else if line.starts_with(b"turn") {
            self.file = self.new.clone()?;
        } else if let Some(words) = line.strip_prefix(b"record ") {
            self.record = read_record(alloc, words)?;
        } else {
            return Ok(line.starts_with(b"#"));
        }
        Ok(true)
    }

    // Whether the call that a line names answers what its words tell.
    fn passes(&self, name: &[u8], words: &[u64]) -> Option<bool> {
        let file = self.file.as_deref()?;
        match name {
            b"restore" => restore_passes(file, self.record, words),
            b"byte" => byte_passes(file, self.record, words),
            b"eight" => eight_passes(file, self.record, words),
            b"cut" => cut_passes(file, self.record, words),
            b"save" => save_passes(file, self.new.as_deref(), self.record, words),
            _ => None,
        }
    }

    fn line_passes(&self, alloc: Global, line: &[u8]) -> Result<bool, AllocError> {
        let Some(end) = line.iter().position(|b| *b == b' ') else {
            return Ok(false);
        };
        let words = read_numbers(alloc, &line[end + 1..])?;
        Ok(words.is_some_and(|w| self.passes(&line[..end], &w).unwrap_or(false)))
    }
}

fn replay<R: Print + AllocGlobal>(rt: &R, text: &[u8]) -> io::Result<()> {
    let mut tally = Tally::default();
    let mut held = Held::default();
    for line in text.split_inclusive(|b| *b == b'\n') {
        let line = line.strip_suffix(b"\n").unwrap_or(line);
        if !held.takes(rt.alloc(), line)? {
            tally.count(rt, line, held.line_passes(rt.alloc(), line)?)?;
        }
    }
    let Tally { passed, total } = tally;
    println!(rt; "store {passed} of {total}")
}

// The same four lines in four programs: they take the heap, which the library that these share may not.
fn main(rt: HostRuntime) -> io::Result<()> {
    let mut text = Vec::with_capacity(rt.alloc(), ROOM as usize)?;
    let file = fs::open(&rt, "store.txt")?;
    file.take(ROOM).read_to_end(&mut text)?;
    replay(&rt, &text)
}

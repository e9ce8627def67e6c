// Replays data/floats.txt on the crate `floats`: a call to a line, with the refusal number and the
// answer that it must give. Writes how many lines passed, and the first that did not.
#![tactic(auto)]

use floats::atan::atan2;
use floats::finite::{bits_of, of_bits};
use floats::floor::floor;
use floats::remainder::rem_euclid;
use floats::root::{cbrt, sqrt, three_halves, two_thirds};
use floats::trig::{cos, sin};
use replay::tally::Tally;
use replay::word::value;
use std::io::Read;
use std::{fs, io};

// A file that is longer is cut, and its tally falls short.
const ROOM: u64 = 262144;

// 2^-45
const NEAR: f64 = 0.000000000000028421709430404007;

// The number of a word of 16 digits.
fn bits(word: &[u8]) -> Option<u64> {
    if word.len() == 16 { value(word) } else { None }
}

// The float of the first 16 bytes, and what stands behind the space after them. What is no such word is
// a NaN, as ever, and so words are not cut at spaces.
fn split_float(line: &[u8]) -> Option<(f64, &[u8])> {
    let (word, rest) = line.split_first_chunk::<17>()?;
    let x = word
        .strip_suffix(b" ")
        .and_then(bits)
        .map_or(f64::NAN, of_bits);
    Some((x, rest))
}

// Whether a line tells this answer: 00 and the float, or the refusal's number alone.
fn is_told(told: &[u8], answer: Result<f64, &[u8]>) -> bool {
    match answer {
        Ok(x) => told.strip_prefix(b"00 ").and_then(bits) == Some(bits_of(x)),
        Err(refusal) => told == refusal,
    }
}

fn is_near(a: f64, b: f64) -> bool {
    (a - b).abs() <= NEAR
}

// The same where Rust's own answer, which is near, stands behind a number.
fn is_told_near(told: &[u8], answer: Result<f64, &[u8]>) -> bool {
    match answer {
        Ok(x) if !x.is_nan() => told.split_last_chunk::<17>().is_some_and(|(told, own)| {
            let own = own.strip_prefix(b" ").and_then(bits);
            own.is_some_and(|own| is_near(x, of_bits(own))) && is_told(told, answer)
        }),
        _ => is_told(told, answer),
    }
}

// Whether the call that the line names answers what the line says.
fn passes(line: &[u8]) -> Option<bool> {
    let end = line.iter().position(|b| *b == b' ')?;
    let (x, rest) = split_float(&line[end + 1..])?;
    Some(match &line[..end] {
        b"sqrt" => is_told(rest, sqrt(x).ok_or(b"12")),
        b"cbrt" => is_told(rest, cbrt(x).ok_or(b"12")),
        b"two_thirds" => is_told(rest, two_thirds(x).ok_or(b"12")),
        b"three_halves" => is_told(rest, three_halves(x).ok_or(b"12")),
        b"floor" => is_told(rest, Ok(floor(x))),
        b"rem_euclid" => {
            let (m, rest) = split_float(rest)?;
            is_told(rest, Ok(rem_euclid(x, m)))
        }
        b"sin" => is_told_near(rest, sin(x).ok_or(b"09")),
        b"cos" => is_told_near(rest, cos(x).ok_or(b"09")),
        b"atan2" => {
            let (along, rest) = split_float(rest)?;
            is_told_near(rest, Ok(atan2(x, along)))
        }
        _ => false,
    })
}

// (Its like is in vectors_orbit: in the library they share, the loop would need a clause on the closure
// that judges a line.)
fn replay(rt: &impl Print, text: &[u8]) -> io::Result<()> {
    let mut tally = Tally::default();
    for line in text.split(|b| *b == b'\n') {
        if !line.is_empty() && !line.starts_with(b"#") {
            tally.count(rt, line, passes(line).unwrap_or(false))?;
        }
    }
    let Tally { passed, total } = tally;
    println!(rt; "floats {passed} passed of {total}")
}

// The same four lines in four programs: they take the heap, which the library that these share may not.
fn main(rt: HostRuntime) -> io::Result<()> {
    let mut text = Vec::with_capacity(rt.alloc(), ROOM as usize)?;
    let file = fs::open(&rt, "floats.txt")?;
    file.take(ROOM).read_to_end(&mut text)?;
    replay(&rt, &text)
}

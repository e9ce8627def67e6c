// The words of a record.
use line::fields::Numbers;
use replay::word::value;
use std::ops::Range;

// The number that stands there in hexadecimal digits, 0 to 9 and A to F. No word of a record is empty, which would be 0, or has above 16.
pub fn hex(line: &[u8], at: Range<usize>) -> Option<u64> {
    value(line.get(at)?)
}

// The same as a number of 32 bits. What is none is one that no field has.
fn small(words: &[u8], at: Range<usize>) -> u32 {
    hex(words, at)
        .and_then(|x| u32::try_from(x).ok())
        .unwrap_or(u32::MAX)
}

// The eight numbers of a record, by their words.
pub fn numbers(words: &[u8]) -> Numbers {
    Numbers {
        satellite: small(words, 0..10),
        inclination: small(words, 11..21),
        node: small(words, 22..32),
        eccentricity: small(words, 33..43),
        perigee: small(words, 44..54),
        anomaly: small(words, 55..65),
        mean_motion: hex(words, 66..76).unwrap_or(u64::MAX),
        revolution: small(words, 77..87),
    }
}

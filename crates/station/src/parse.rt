// Numbers that an operator types. A decimal has an optional sign, digits, and at most one point among or
// around them; its digits make a whole number of at most `LARGEST`, with at most 22 of them after the
// point. Or 0x and 16 hexadecimal digits: the bits of the float. Not accepted: an exponent, a space, a
// comma, a word such as inf or nan, more digits than that.
use floats::finite::of_bits;
use std::str::from_utf8;

// The greatest whole number below 2^53 that ends in a 9: any digit may stand behind its tens.
const LARGEST: u64 = 9007199254740989;

const MOST_PLACES: usize = 22;

// A whole number with one digit more; none where it is no digit, or the number is too large.
fn with_digit(value: u64, digit: char) -> Option<u64> {
    let digit = u64::from(digit.to_digit(10)?);
    let longer = value.checked_mul(10)?.checked_add(digit)?;
    (longer <= LARGEST).then_some(longer)
}

fn decimal(word: &str) -> Option<f64> {
    let digits = word.strip_prefix(['+', '-']).unwrap_or(word);
    let (whole, fraction) = digits.split_once('.').unwrap_or((digits, ""));
    if fraction.len() > MOST_PLACES {
        return None;
    }
    whole
        .chars()
        .chain(fraction.chars())
        .try_fold(0, with_digit)?;
    word.parse().ok()
}

// The float whose bits are 16 hexadecimal digits.
fn by_bits(digits: &str) -> Option<f64> {
    if digits.len() != 16 || !digits.bytes().all(|b| b.is_ascii_hexdigit()) {
        return None;
    }
    u64::from_str_radix(digits, 16).ok().map(of_bits)
}

// The float that a word stands for.
pub fn number(word: &[u8]) -> Option<f64> {
    let word = from_utf8(word).ok()?;
    match word.strip_prefix("0x") {
        Some(digits) => by_bits(digits),
        None => decimal(word),
    }
}

// The satellite that a word stands for: digits alone, below 2^32.
pub fn satellite(word: &[u8]) -> Option<u32> {
    if !word.iter().all(|b| b.is_ascii_digit()) {
        return None;
    }
    from_utf8(word).ok()?.parse().ok()
}

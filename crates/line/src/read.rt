// Reads line two: its eight numbers, or what is wrong with it.
ghost use Rattle.std.specs.Prelude.{◌≡◌, Err, ◌+◌, ◌*◌, ◌-◌, ◌<◌, ◌≤◌, ◌^◌, length, sum_by, position, not};
ghost use Rattle.line.specs.Read.{digit_of, weight_of, check_digit, among, first_not, not_padded, bad_fraction, bad_field, first_bad, value_of, number_of, numbers_of, turned, read_of, order};

use crate::fields::{
    ANOMALY, ECCENTRICITY, FIELDS, Field, INCLINATION, MEAN_MOTION, NODE, Numbers, PERIGEE,
    REVOLUTION, SATELLITE,
};

// The first of six faults of a line, in this order.
#[derive(Clone, Copy, Debug, PartialEq, Eq)]
pub enum LineError {
    // 1: it has not 69 bytes
    Length,
    // 2: column 1 is not the digit 2
    LineNumber,
    // 3: column 69 is not the check digit
    CheckDigit,
    // 4: the first of the columns 2 to 68 with a byte that may not stand there
    BadColumn(usize),
    // 5: the inclination is above 180 degrees
    Inclination,
    // 6: node, perigee or anomaly is 360 degrees or more
    Angle,
}

impl LineError {
    // The place of a fault in the order above. (No `From`: `e.number()` says which number it is.)
    pub fn number(self) -> u8
        ensures { result ≡ order (Err self) }
    {
        match self {
            LineError::Length => 1,
            LineError::LineNumber => 2,
            LineError::CheckDigit => 3,
            LineError::BadColumn(_) => 4,
            LineError::Inclination => 5,
            LineError::Angle => 6,
        }
    }
}

// The place of an answer's fault in that order; 0 of a line that is read. (Public, and its clause cites
// `order` of specs/, which has the 0 too.)
pub fn order_of(answer: Result<Numbers, LineError>) -> u8
    ensures { result ≡ order answer }
{
    match answer {
        Ok(_) => 0,
        Err(fault) => fault.number(),
    }
}

// What a byte counts as a digit of a number: a blank, as every other byte, counts 0.
#[tactic(auto, unfolding(crate::specs::Read::digit_of))]
fn digit(b: u8) -> u64
    ensures { result ≡ digit_of b }
{
    if b.is_ascii_digit() {
        u64::from(b - b'0')
    } else {
        0
    }
}

// What a byte adds to the sum of the check digit: a digit itself, a minus sign 1, all else 0.
#[tactic(auto, unfolding(crate::specs::Read::weight_of))]
fn weight(b: u8) -> u64
    ensures { result ≡ weight_of b }
{
    if b == b'-' { 1 } else { digit(b) }
}

// The sum of the check digit over some bytes.
fn sum(bytes: &[u8]) -> u64
    requires { sum_by weight_of bytes.now < 2 ^ 64 }
    ensures { result ≡ sum_by weight_of bytes.now }
{
    bytes.iter().map(|b| weight(*b)).sum()
}

// The byte that column 69 has to be; columns that are not there count nothing.
#[tactic(auto, unfolding(crate::specs::Read::check_digit))]
pub fn check_digit(line: &[u8]) -> u8
    ensures { result ≡ check_digit line.now }
{
    b'0' + (sum(&line[..line.len().min(68)]) % 10) as u8
}

// The place of the first byte that is not from `low` to `high`, the first being 0.
fn first_other(bytes: &[u8], low: u8, high: u8) -> Option<usize>
    ensures { result ≡ position (λ b. not (among low high b)) bytes.now }
{
    bytes.iter().position(|b| !(low..=high).contains(b))
}

// The first of the bytes behind a column that is not from `low` to `high`, by its column.
fn first_not(bytes: &[u8], column: usize, low: u8, high: u8) -> Option<usize>
    requires { column + length bytes.now ≤ 69 }
    ensures { result ≡ first_not low high column bytes.now }
{
    first_other(bytes, low, high).map(|i| column + i + 1)
}

// The same for leading blanks and then digits.
fn not_padded(bytes: &[u8], column: usize) -> Option<usize>
    requires { column + length bytes.now ≤ 69 }
    ensures { result ≡ not_padded column bytes.now }
{
    let blanks = first_other(bytes, b' ', b' ')?;
    first_not(&bytes[blanks..], column + blanks, b'0', b'9')
}

// The same for what a field has behind its whole digits: its point, and digits.
#[tactic(auto, unfolding(crate::specs::Read::bad_fraction))]
fn bad_fraction(line: &[u8; 69], f: Field) -> Option<usize>
    ensures { result ≡ bad_fraction f line.now }
{
    if f.last < f.point {
        return None;
    }
    if line[f.point - 1] != b'.' {
        return Some(f.point);
    }
    first_not(&line[f.point..f.last], f.point, b'0', b'9')
}

// The first bad column of a field and of the blanks between it and column `before`, where the last one ended.
#[tactic(auto, unfolding(crate::specs::Read::bad_field))]
fn bad_field(line: &[u8; 69], before: usize, f: Field) -> Option<usize>
    requires { before < f.first }
    ensures { result ≡ bad_field before f line.now }
{
    first_not(&line[before..f.first - 1], before, b' ', b' ')
        .or_else(|| not_padded(&line[f.first - 1..f.point - 1], f.first - 1))
        .or_else(|| bad_fraction(line, f))
}

// The first bad column of a line.
fn first_bad(line: &[u8; 69]) -> Option<usize>
    ensures { result ≡ first_bad line.now }
{
    let mut before = 1;
    for f in FIELDS {
        let bad = bad_field(line, before, f);
        if bad.is_some() {
            return bad;
        }
        before = f.last;
    }
    None
}

// The number n with some digits put after it.
fn value(digits: &[u8], n: u64) -> u64
    requires { (n + 1) * 10 ^ length digits.now ≤ 10 ^ 18 }
    ensures { result ≡ value_of n digits.now }
{
    let mut value = n;
    for b in digits {
        value = 10 * value + digit(*b);
    }
    value
}

// The number of a field.
#[tactic(auto, unfolding(crate::specs::Read::number_of))]
fn number(line: &[u8; 69], f: Field) -> u64
    ensures { result ≡ number_of f line.now }
{
    let whole = value(&line[f.first - 1..f.point - 1], 0);
    if f.last < f.point {
        return whole;
    }
    value(&line[f.point..f.last], whole)
}

// The number of a field of at most nine columns.
fn small(line: &[u8; 69], f: Field) -> u32
    requires { f.last - f.first ≤ 8 }
    ensures { result ≡ number_of f line.now }
{
    number(line, f) as u32
}

// The numbers of a line.
#[tactic(auto, unfolding(crate::specs::Read::numbers_of, crate::specs::Read::number_of))]
fn numbers(line: &[u8; 69]) -> Numbers
    ensures { result ≡ numbers_of line.now }
{
    Numbers {
        satellite: small(line, SATELLITE),
        inclination: small(line, INCLINATION),
        node: small(line, NODE),
        eccentricity: small(line, ECCENTRICITY),
        perigee: small(line, PERIGEE),
        anomaly: small(line, ANOMALY),
        mean_motion: number(line, MEAN_MOTION),
        revolution: small(line, REVOLUTION),
    }
}

// Whether an angle of those that may be anything below a turn is a turn or more.
#[tactic(auto, unfolding(crate::specs::Read::turned))]
fn is_turned(n: Numbers) -> bool
    ensures { result ≡ turned n }
{
    3600000 <= n.node || 3600000 <= n.perigee || 3600000 <= n.anomaly
}

// Reads line two, of any bytes.
#[tactic(auto, unfolding(crate::specs::Read::read_of, crate::specs::Read::ranged))]
pub fn read(line: &[u8]) -> Result<Numbers, LineError>
    ensures { result ≡ read_of line.now }
{
    let line = <&[u8; 69]>::try_from(line).map_err(|_| LineError::Length)?;
    if line[0] != b'2' {
        return Err(LineError::LineNumber);
    }
    if line[68] != check_digit(line) {
        return Err(LineError::CheckDigit);
    }
    if let Some(column) = first_bad(line) {
        return Err(LineError::BadColumn(column));
    }
    let n = numbers(line);
    if 1800000 < n.inclination {
        return Err(LineError::Inclination);
    }
    if is_turned(n) {
        return Err(LineError::Angle);
    }
    Ok(n)
}

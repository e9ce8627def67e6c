// Writes line two of a two-line element set, in the columns of crate line's table.
#![tactic(auto)]

ghost use Rattle.std.specs.Prelude.{◌≡◌, Err, true, ◌/◌, ◌^◌, length};
ghost use Rattle.line_write.specs.Write.{byte_of, padded, field_on, fields_on, greatest, fits, fitted_of, written_to, output_of, number, place};
ghost use Rattle.line_write.specs.RoundTrip.{ReadsBack, OneSpelling};

use line::fields::{
    ANOMALY, ECCENTRICITY, Field, INCLINATION, MEAN_MOTION, NODE, Numbers, PERIGEE, REVOLUTION,
    SATELLITE,
};
use line::read::check_digit;

// The fields, in the order of the line.
#[derive(Clone, Copy, Debug, PartialEq, Eq)]
pub enum Name {
    Satellite = 1,
    Inclination,
    Node,
    Eccentricity,
    Perigee,
    Anomaly,
    MeanMotion,
    Revolution,
}

// Why a line is not written.
#[derive(Clone, Copy, Debug, PartialEq, Eq)]
pub enum WriteError {
    // refusal 19: the buffer has fewer than 69 bytes
    OutputShort,
    // the first field, in the order of the line, whose number does not fit its columns or is out of its range
    DoesNotFit(Name),
}

impl WriteError {
    // 19 for a short buffer; a field that does not fit is refused by its name, has no number and gives 255.
    // (No `From`: `e.number()` says which number it is, by the same body.)
    pub fn number(self) -> u8
        ensures { result ≡ number (Err self) }
    {
        match self {
            WriteError::OutputShort => 19,
            WriteError::DoesNotFit(_) => 255,
        }
    }
}

// The number of an answer: the refusal's, and 0 where the line is written. (Public, and its clause cites
// `number` of specs/, which has the 0 too.)
pub fn number(answer: Result<(), WriteError>) -> u8
    ensures { result ≡ number answer }
{
    match answer {
        Ok(()) => 0,
        Err(e) => e.number(),
    }
}

impl Name {
    // The place of a field in the line, the first being 1.
    pub fn place(self) -> u8
        ensures { result ≡ place self }
    {
        self as u8
    }

    // The greatest number that the field may have: what its columns hold, 180 degrees, or what is below 360.
    fn greatest(self) -> u64
        ensures { result ≡ greatest self }
    {
        match self {
            Name::Satellite | Name::Revolution => 99999,
            Name::Inclination => 1800000,
            Name::Node | Name::Perigee | Name::Anomaly => 3599999,
            Name::Eccentricity => 9999999,
            Name::MeanMotion => 9999999999,
        }
    }
}

// The last digit of x, or a blank where there may be one and x has no digit left.
// (`may` is a test of the column's place, as `byte_of` of specs/ has it.)
#[tactic(auto, unfolding(crate::specs::Write::byte_of))]
fn byte(may: bool, x: u64) -> u8
    ensures { result ≡ byte_of may x }
{
    if may && x == 0 {
        return b' ';
    }
    b'0' + (x % 10) as u8
}

// Writes the last digits of x, the first `blanks` of them blank before the first digit. Returns the digits that are left.
fn put(columns: &mut [u8], blanks: usize, x: u64) -> u64
    ensures { (result ≡ x / 10 ^ length columns.old) × (columns.new ≡ padded blanks (length columns.old) x) }
{
    let mut left = x;
    // by index: under an adapter of iter_mut no invariant can name what is written (tried, the proof did not close)
    for i in (0..columns.len()).rev() {
        columns[i] = byte(i < blanks, left);
        left /= 10;
    }
    left
}

// Writes x in a field, the first `blanks` columns blank before the first digit.
fn put_field(line: &mut [u8; 69], f: Field, blanks: usize, x: u64)
    ensures { line.new ≡ field_on f blanks x line.old }
{
    let mut whole = x;
    if f.point <= f.last {
        whole = put(&mut line[f.point..f.last], 0, x);
        line[f.point - 1] = b'.';
    }
    put(&mut line[f.first - 1..f.point - 1], blanks, whole);
}

// All fields of a line; column 69 is blank. Of each, so many columns are blank before the first digit: at least one digit stands before a point.
// (One by one, as in `fitted` and in the reader: the numbers are fields of a struct, and a loop would need them as an array first.)
fn fields(n: Numbers) -> [u8; 69]
    ensures { result ≡ fields_on n }
{
    let mut line = [b' '; 69];
    line[0] = b'2';
    put_field(&mut line, SATELLITE, 0, u64::from(n.satellite));
    put_field(&mut line, INCLINATION, 2, u64::from(n.inclination));
    put_field(&mut line, NODE, 2, u64::from(n.node));
    put_field(&mut line, ECCENTRICITY, 0, u64::from(n.eccentricity));
    put_field(&mut line, PERIGEE, 2, u64::from(n.perigee));
    put_field(&mut line, ANOMALY, 2, u64::from(n.anomaly));
    put_field(&mut line, MEAN_MOTION, 1, n.mean_motion);
    put_field(&mut line, REVOLUTION, 4, u64::from(n.revolution));
    line
}

// Refuses a number above the greatest of its field.
fn fits(name: Name, x: u64) -> Result<(), WriteError>
    ensures { result ≡ fits name x (Ok tt) }
{
    if x > name.greatest() {
        return Err(WriteError::DoesNotFit(name));
    }
    Ok(())
}

// Refuses the first field whose number does not fit.
#[tactic(auto, unfolding(crate::specs::Write::fitted_of))]
fn fitted(n: Numbers) -> Result<(), WriteError>
    ensures { result ≡ fitted_of n }
{
    fits(Name::Satellite, u64::from(n.satellite))?;
    fits(Name::Inclination, u64::from(n.inclination))?;
    fits(Name::Node, u64::from(n.node))?;
    fits(Name::Eccentricity, u64::from(n.eccentricity))?;
    fits(Name::Perigee, u64::from(n.perigee))?;
    fits(Name::Anomaly, u64::from(n.anomaly))?;
    fits(Name::MeanMotion, n.mean_motion)?;
    fits(Name::Revolution, u64::from(n.revolution))
}

// Writes line two over the first 69 bytes of a buffer; nothing where it is refused.
#[tactic(auto, unfolding(crate::specs::Write::written_to))]
pub fn write(n: Numbers, out: &mut [u8]) -> Result<(), WriteError>
    ensures { (result ≡ written_to (length out.old) n)
        × (out.new ≡ output_of (written_to (length out.old) n) n out.old) }
{
    if out.len() < 69 {
        return Err(WriteError::OutputShort);
    }
    fitted(n)?;
    let mut line = fields(n);
    line[68] = check_digit(&line);
    out[..69].copy_from_slice(&line);
    Ok(())
}

// Holds what is proved of reading and writing.
pub fn promised() -> bool
    ensures { (result ≡ true) × ReadsBack × OneSpelling }
{
    true
}

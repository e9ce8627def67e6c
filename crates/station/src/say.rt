// Where words go: answers to standard output, and what went wrong to standard error.
use std::fmt::{Display, Formatter, Write};
use std::io::ErrorKind;
use std::{fmt, io};

#[derive(Clone, Copy, PartialEq, Eq)]
pub enum Stream {
    Answers,
    Errors,
}

pub const OUT: Stream = Stream::Answers;

pub const ERR: Stream = Stream::Errors;

// What has the two streams. The bytes need not be text.
pub trait Streams {
    fn write(&self, to: Stream, bytes: &[u8]) -> io::Result<()>;
}

impl Streams for HostRuntime {
    fn write(&self, to: Stream, bytes: &[u8]) -> io::Result<()> {
        match to {
            Stream::Answers => self.stdout().write_all(bytes),
            Stream::Errors => self.stderr().write_all(bytes),
        }
    }
}

// An answer that cannot be written out is told, so that it does not pass for a good one. A reader that
// went away, as in a pipe to head, is no fault.
pub fn put_bytes(rt: &impl Streams, to: Stream, bytes: &[u8]) {
    if let Err(why) = rt.write(to, bytes)
        && to == OUT
        && why.kind() != ErrorKind::BrokenPipe
    {
        let _ = rt.write(ERR, b"station: standard output cannot be written\n");
    }
}

// A stream as what text is written to. A piece that cannot be written is told, and the rest is tried.
#[derive(Drop)]
struct Writer<'a, R> {
    rt: &'a R,
    to: Stream,
}

impl<R: Streams> Write for Writer<'_, R> {
    fn write_str(&mut self, text: &str) -> fmt::Result {
        put_bytes(self.rt, self.to, text.as_bytes());
        Ok(())
    }
}

// Text, a write to each piece of it.
pub fn put<T: Display + Drop>(rt: &impl Streams, to: Stream, text: T) {
    let mut writer = Writer { rt, to };
    let _ = writer.write(text);
}

// A refusal by its number: one table of words for the errors of all the crates below.
#[derive(Clone, Copy)]
pub struct Refusal(pub u32);

impl Refusal {
    fn meaning(self) -> &'static str {
        match self.0 {
            1 => "the time is not finite",
            2 => "the time is beyond 754,974,720 minutes",
            3 => "another number given is not finite",
            4 => "a state is given, and the orbit is non-resonant",
            5 => "no state is given, and the orbit is resonant",
            6 => "the state's time is -0.0, no multiple of 720, or beyond the limit",
            7 => "the state has gone the other way, or past the time asked",
            8 =>
                "the resonance cannot be followed there: an angle or a number on the way is out of range",
            9 => "an angle is beyond 1,048,576",
            10 => "the eccentricity is out of range",
            11 => "the perturbed eccentricity is outside 0 to 1",
            12 => "a root or power is taken of no such number, or an element is not finite",
            13 => "a number built is not finite",
            14 => "the file is no store: its header or contents are wrong",
            15 => "the satellite is not in the file",
            16 =>
                "the record's kind, flag, zero bytes or length is wrong, or its kind is not its orbit's class",
            17 => "a number of the record is not finite",
            18 => "the stored state is not the one that its orbit steps to from fresh",
            19 => "the new file does not fit the room for it",
            20 => "the store is full: it has 128 satellites",
            _ => "",
        }
    }
}

// Its number and its words, with no line end.
impl Display for Refusal {
    fn fmt<W: Write>(&self, f: &mut Formatter<W>) -> fmt::Result {
        write!(f, "refused {}: {}", self.0, self.meaning())
    }
}

// A refusal as a line of its own, on standard error.
pub fn refuse(rt: &impl Streams, number: u32) {
    put(rt, ERR, format_args!("{}\n", Refusal(number)));
}

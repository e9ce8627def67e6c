// The records of a store: which there are, and what each says when it is examined.
use crate::numbers::Decimal;
use crate::say::{ERR, OUT, Refusal, Streams, put, refuse};
use body::examine::{BodyError, Record};
use body::floats_at::f64_at;
use body::read::{is_shaped, read_body, state_start};
use contents::find::{FindError, Span, find, record_count, satellite_at};
use contents::format::FileWrong;
use floats::finite::magnitude;
use orbit::propagator::{Resonance, Resonant};
use resonance::state::ResonanceState;
use std::fmt;
use std::fmt::{Display, Formatter, Write};
use times::time::is_placed;

// A replay of more than 100,000 steps of 720 minutes is long enough to be told of before it.
const LONG: f64 = 72000000.0;

// A time in minutes and in days.
#[derive(Clone, Copy)]
pub struct Minutes(pub f64);

#[derive(Clone, Copy)]
struct Steps(u32);

// A state, if there is one, and the steps made to it.
#[derive(Clone, Copy)]
pub struct State {
    pub state: Option<ResonanceState>,
    pub steps: u32,
}

// Kind, flag and state of a good record.
#[derive(Clone, Copy)]
pub struct Good(pub Record);

impl Display for Minutes {
    fn fmt<W: Write>(&self, f: &mut Formatter<W>) -> fmt::Result {
        let t = self.0;
        write!(
            f,
            "{:.3} minutes ({:.3} days)",
            Decimal(t),
            Decimal(t / 1440.0)
        )
    }
}

impl Display for Steps {
    fn fmt<W: Write>(&self, f: &mut Formatter<W>) -> fmt::Result {
        let steps = self.0;
        let words = if steps == 1 { " step" } else { " steps" };
        write!(f, "{steps}{words}")
    }
}

impl Display for State {
    fn fmt<W: Write>(&self, f: &mut Formatter<W>) -> fmt::Result {
        match self.state {
            None => f.write_str("no state"),
            Some(s) => write!(f, "state at {}, {}", Minutes(s.t), Steps(self.steps)),
        }
    }
}

impl Display for Good {
    fn fmt<W: Write>(&self, f: &mut Formatter<W>) -> fmt::Result {
        let Record {
            constants,
            state,
            steps,
        } = self.0;
        let kind = match constants.resonant {
            Resonant::No { .. } => "non-resonant",
            Resonant::Yes {
                resonance: Resonance::OneDay { .. },
                ..
            } => "one-day",
            Resonant::Yes {
                resonance: Resonance::HalfDay { .. },
                ..
            } => "half-day",
        };
        let flag = if constants.afspc_compatibility_mode {
            ", AFSPC flag on, "
        } else {
            ", AFSPC flag off, "
        };
        write!(f, "{kind}{flag}{}", State { state, steps })
    }
}

// Refusal 14, and what may be behind it.
pub fn refuse_file(rt: &impl Streams, file: &[u8]) {
    let why = if file.is_empty() {
        "; it has no bytes, where a store without records has 8"
    } else {
        ""
    };
    put(
        rt,
        ERR,
        format_args!("{}{why}\n", Refusal(FileWrong.number())),
    );
}

// The time of a body's state; none where it has no state or is out of shape.
fn time_of(body: &[u8]) -> Option<f64> {
    let kind = *body.first()?;
    if !is_shaped(body) || kind == 0 {
        return None;
    }
    Some(f64_at(body, state_start(u32::from(kind))))
}

// Says that a record's replay is long, before it is made.
pub fn tell_long(rt: &impl Streams, satellite: u32, body: &[u8]) {
    let Some(t) = time_of(body) else {
        return;
    };
    if is_placed(t) && magnitude(t) > LONG {
        put(
            rt,
            OUT,
            format_args!(
                "satellite {satellite}: its state is {:.0} steps from fresh, and is being replayed\n",
                Decimal(magnitude(t) / 720.0)
            ),
        );
    }
}

// A refusal as the rest of a line among the answers. (`refuse` has another stream and no word before it:
// one function would take both.)
fn put_bad(rt: &impl Streams, number: u32) {
    put(rt, OUT, format_args!("BAD, {}\n", Refusal(number)));
}

// Says what a body is, as the rest of a line.
fn put_examined(rt: &impl Streams, examined: Result<Record, BodyError>) {
    match examined {
        Ok(record) => put(rt, OUT, format_args!("{}\n", Good(record))),
        Err(error @ BodyError::StateWrong { steps }) => put(
            rt,
            OUT,
            format_args!(
                "BAD, {} (after {})\n",
                Refusal(error.number()),
                Steps(steps)
            ),
        ),
        Err(error) => put_bad(rt, error.number()),
    }
}

// The bytes of a body.
pub fn body_of(file: &[u8], span: Span) -> &[u8] {
    let end = span.offset.saturating_add(span.size);
    file.get(span.offset..end).unwrap_or(file)
}

// Examines a satellite's record, and answers whether it is good.
fn check_body(rt: &impl Streams, satellite: u32, body: &[u8]) -> bool {
    tell_long(rt, satellite, body);
    let examined = read_body(body);
    put(rt, OUT, format_args!("satellite {satellite}: "));
    put_examined(rt, examined);
    examined.is_ok()
}

// The satellite of the record at a place, and its body.
fn record_at(file: &[u8], i: usize) -> Result<(u32, Span), FindError> {
    let satellite = satellite_at(file, i)?;
    Ok((satellite, find(file, satellite)?))
}

// Examines the record at a place, and answers whether it is good.
fn check_at(rt: &impl Streams, file: &[u8], i: usize) -> bool {
    match record_at(file, i) {
        Ok((satellite, span)) => check_body(rt, satellite, body_of(file, span)),
        Err(error) => {
            put_bad(rt, error.number());
            false
        }
    }
}

fn check_all(rt: &impl Streams, file: &[u8], n: usize) {
    let bad = (0..n).filter(|i| !check_at(rt, file, *i)).count();
    if bad > 0 {
        put(rt, ERR, format_args!("bad records: {bad} of {n}\n"));
        return;
    }
    let words = if n == 1 {
        " record, good\n"
    } else {
        " records, all good\n"
    };
    put(rt, OUT, format_args!("{n}{words}"));
}

// (`check` and `list` differ in what is done with the count: with a closure for it they would be no shorter
// than the two matches.)
// Each record of a store, a line to each as it is done.
pub fn check(rt: &impl Streams, file: &[u8]) {
    match record_count(file) {
        Ok(n) => check_all(rt, file, n),
        Err(FileWrong) => refuse_file(rt, file),
    }
}

fn list_at(rt: &impl Streams, file: &[u8], i: usize) {
    match satellite_at(file, i) {
        Ok(satellite) => put(rt, OUT, format_args!("satellite {satellite}\n")),
        Err(error) => refuse(rt, error.number()),
    }
}

fn list_all(rt: &impl Streams, file: &[u8], n: usize) {
    for i in 0..n {
        list_at(rt, file, i);
    }
    let words = if n == 1 {
        " satellite\n"
    } else {
        " satellites\n"
    };
    put(rt, OUT, format_args!("{n}{words}"));
}

// The satellites of a store.
pub fn list(rt: &impl Streams, file: &[u8]) {
    match record_count(file) {
        Ok(n) => list_all(rt, file, n),
        Err(FileWrong) => refuse_file(rt, file),
    }
}

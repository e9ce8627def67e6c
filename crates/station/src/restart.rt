// The restart, shown on a published half-day orbit over three days: one controller runs on, the other is
// saved in the middle, dropped, and taken up again by a third that was started with another orbit.
use crate::answer::{are_same, elements_of};
use crate::numbers::{Bits, Decimal};
use crate::orders::EMPTY;
use crate::question::at_time;
use crate::say::{ERR, OUT, Streams, put, refuse};
use crate::sets::{ITALSAT, MOLNIYA};
use controller::Controller;
use elements::elements::Elements;
use orbit::propagator::Constants;
use resonance::ask::Answer;
use std::fmt;
use std::fmt::{Display, Formatter, Write};

// The satellite's number in the store.
const SATELLITE: u32 = 8195;
// Minutes between two asks: 6 hours. Thirteen asks are three days.
const BETWEEN: f64 = 360.0;

const ASKS: u32 = 13;
// The restart comes after this ask, at 36 hours: the first is 0.
const SAVED_AFTER: u32 = 6;

// The same number of both runs, as the rest of a line.
#[derive(Clone, Copy)]
struct Beside(f64, f64);

impl Display for Beside {
    fn fmt<W: Write>(&self, f: &mut Formatter<W>) -> fmt::Result {
        let Beside(x, y) = *self;
        write!(
            f,
            "{:13.9}  {}  |{:13.9}  {}\n",
            Decimal(x),
            Bits(x),
            Decimal(y),
            Bits(y)
        )
    }
}

// A time, and the two elements that the resonance moves, of both runs.
fn put_pair(rt: &impl Streams, t: f64, e: Elements, f: Elements) {
    put(
        rt,
        OUT,
        format_args!(
            "{:4.0} h  mean anomaly{}        mean motion {}",
            Decimal(t / 60.0),
            Beside(e.orbit.mean_anomaly, f.orbit.mean_anomaly),
            Beside(e.orbit.mean_motion, f.orbit.mean_motion)
        ),
    );
}

// Whether two answers are elements of equal bits. They are written out side by side.
fn compare(rt: &impl Streams, t: f64, a: Answer, b: Answer) -> bool {
    let first = elements_of(rt, a);
    let second = elements_of(rt, b);
    match (first, second) {
        (Some(e), Some(f)) => {
            put_pair(rt, t, e, f);
            are_same(e, f)
        }
        _ => false,
    }
}

// What takes the dropped controller's place, from the bytes of the store.
fn resume(rt: &impl Streams, fresh: Controller, file: &[u8]) -> Controller {
    let r = fresh.restore(file, SATELLITE);
    match r.answer {
        Ok(()) => put(
            rt,
            OUT,
            format_args!(
                "        a new one, started with Italsat 2, is restored from them: {} steps replayed\n",
                r.steps
            ),
        ),
        Err(error) => refuse(rt, error.number()),
    }
    r.controller
}

// The old controller is saved into the empty store, and given up for one that is restored from it.
fn restart(rt: &impl Streams, old: Controller, fresh: Controller) -> Controller {
    // fixed: a Vec may fail, and what the program says then would be new
    let mut room = [0u8; 512];
    match old.save(EMPTY, &mut room, SATELLITE) {
        Ok(size) => {
            put(
                rt,
                OUT,
                format_args!(
                    "        saved into the empty store, {size} bytes; the controller on the right is dropped\n"
                ),
            );
            resume(rt, fresh, &room[..size.min(room.len())])
        }
        Err(error) => {
            refuse(rt, error.number());
            fresh
        }
    }
}

// Whether every answer of the two runs had equal bits. Each is asked with the angles of the constants that
// it has in force.
fn run(rt: &impl Streams, c: Constants, other: Constants) -> bool {
    let mut straight = Controller::start(c);
    let mut restarted = straight;
    let mut t = 0.0;
    let mut same = true;
    for i in 0..ASKS {
        let a = straight.ask(at_time(straight.constants(), t));
        let b = restarted.ask(at_time(restarted.constants(), t));
        straight = a.controller;
        restarted = b.controller;
        same &= compare(rt, t, a.answer, b.answer);
        if i == SAVED_AFTER {
            restarted = restart(rt, restarted, Controller::start(other));
        }
        t += BETWEEN;
    }
    same
}

// The restart, from the two orbits to the verdict.
pub fn show(rt: &impl Streams) {
    let (Ok(c), Ok(other)) = (MOLNIYA.build(), ITALSAT.build()) else {
        put(
            rt,
            ERR,
            "station: the orbit that is built in cannot be built\n",
        );
        return;
    };
    put(
        rt,
        OUT,
        "Molniya 2-14, a half-day orbit, asked every 6 hours over three days.
Left: the controller that never restarts. Right: the one that does.
Angles in radians, to the nearest in nine places, and the bits of each number.

",
    );
    if run(rt, c, other) {
        put(
            rt,
            OUT,
            "
All twelve numbers of each answer are equal, bit for bit, at all 13 times:
the dish points where it would have pointed without the restart.
",
        );
    } else {
        put(
            rt,
            OUT,
            "
The two runs differ:
the dish does NOT point where it would have pointed without the restart.
",
        );
        put(rt, ERR, "station: the two runs differ\n");
    }
}

// Asks and saves of a satellite of a store, and a store to try them on.
use crate::answer::{elements_of, put_elements};
use crate::files::{create, fail, fail_beside, is_filled, is_swapped};
use crate::question::at_time;
use crate::records::{Good, Minutes, State, body_of, refuse_file, tell_long};
use crate::say::{ERR, OUT, Streams, put, refuse};
use crate::sets::{ITALSAT, MOLNIYA, NAVSTAR, Set};
use body::examine::Record;
use contents::find::find;
use controller::{Controller, Reply, Resumed};
use elements::elements::Question;
use orbit::propagator::Constants;
use record::constants_of;
use std::io;
use std::rt::Files;
use store::restore::RestoreError;

// The longest path that has a file beside it: with .new behind it the system still takes it.
const LONGEST: usize = 4091;

// A store without records.
pub const EMPTY: &[u8] = b"ORBT\x01\x00\x00\x00";

// What is asked of a satellite: a time, whose angles follow from the satellite's constants, or a whole
// question.
#[derive(Clone, Copy)]
pub enum Asked {
    Time(f64),
    Whole(Question),
}

#[derive(Clone, Copy)]
pub struct Order {
    pub satellite: u32,
    pub asked: Asked,
}

impl Asked {
    fn t(self) -> f64 {
        match self {
            Asked::Time(t) => t,
            Asked::Whole(q) => q.t,
        }
    }

    fn question(self, c: Constants) -> Question {
        match self {
            Asked::Time(t) => at_time(c, t),
            Asked::Whole(q) => q,
        }
    }
}

// A controller that has no orbit yet: a restore brings one.
fn idle() -> Controller {
    Controller::start(constants_of(0, false, &[0.0; 34]))
}

fn tell_replay(rt: &impl Streams, file: &[u8], satellite: u32) {
    if let Ok(span) = find(file, satellite) {
        tell_long(rt, satellite, body_of(file, span));
    }
}

// A satellite restored from a store; none where that is refused, and then it says why.
fn restored(rt: &impl Streams, file: &[u8], satellite: u32) -> Option<Resumed> {
    tell_replay(rt, file, satellite);
    let r = idle().restore(file, satellite);
    match r.answer {
        Ok(()) => return Some(r),
        Err(RestoreError::FileWrong) => refuse_file(rt, file),
        Err(error) => refuse(rt, error.number()),
    }
    None
}

fn ask_restored(rt: &impl Streams, r: Resumed, asked: Asked) -> Reply {
    let controller = r.controller;
    let constants = controller.constants();
    let record = Record {
        constants,
        state: controller.state(),
        steps: r.steps,
    };
    put(rt, OUT, format_args!("restored: {}\n", Good(record)));
    controller.ask(asked.question(constants))
}

fn put_moved(rt: &impl Streams, t: f64, reply: Reply) {
    let state = State {
        state: reply.controller.state(),
        steps: reply.steps,
    };
    put(rt, OUT, format_args!("asked at {}: {state}\n", Minutes(t)));
}

// The elements of a satellite at a time.
pub fn ask(rt: &impl Streams, file: &[u8], order: Order) {
    let Some(r) = restored(rt, file, order.satellite) else {
        return;
    };
    let reply = ask_restored(rt, r, order.asked);
    if let Some(e) = elements_of(rt, reply.answer) {
        put_moved(rt, order.asked.t(), reply);
        put_elements(rt, e);
    }
}

fn put_saved(rt: &impl Streams, path: &str) {
    put(rt, OUT, format_args!("saved into {path}\n"));
}

fn put_unchanged(rt: &impl Streams) {
    put(rt, ERR, "station: the file is as it was\n");
}

// Whether the new bytes took the place of the old file, by way of the file beside. (A bool: why not has
// been said by then, of the one file or of the other.)
fn is_replaced<R: Streams + Files>(rt: &R, path: &str, beside: &str, bytes: &[u8]) -> bool {
    match create(rt, beside) {
        Ok(file) => is_filled(rt, file, beside, bytes) && is_swapped(rt, path, beside),
        Err(why) => {
            fail_beside(rt, beside, why);
            false
        }
    }
}

fn write_over<R: Streams + Files + Alloc>(rt: &R, path: &str, bytes: &[u8]) {
    if path.len() > LONGEST {
        put(rt, ERR, "station: the name of the file is too long\n");
        return;
    }
    match format!(in rt.alloc(); "{path}.new") {
        Ok(beside) => {
            if is_replaced(rt, path, beside.as_str(), bytes) {
                put_saved(rt, path);
                return;
            }
        }
        Err(why) => fail(rt, path.as_bytes(), io::Error::from(why)),
    }
    put_unchanged(rt);
}

fn save_moved<R: Streams + Files + Alloc>(
    rt: &R,
    path: &str,
    file: &[u8],
    satellite: u32,
    controller: Controller,
) {
    // fixed: a Vec may fail, and what the program says then would be new
    let mut room = [0u8; 65536];
    match controller.save(file, &mut room, satellite) {
        Ok(size) => write_over(rt, path, &room[..size.min(room.len())]),
        Err(error) => {
            refuse(rt, error.number());
            put_unchanged(rt);
        }
    }
}

// Moves a satellite of a store to a time. Where the ask is refused the file stays as it is, though
// refusals 9 to 12 have moved the state.
pub fn save<R: Streams + Files + Alloc>(rt: &R, path: &str, file: &[u8], order: Order) {
    let Some(r) = restored(rt, file, order.satellite) else {
        return;
    };
    let reply = ask_restored(rt, r, order.asked);
    if elements_of(rt, reply.answer).is_none() {
        put_unchanged(rt);
        return;
    }
    put_moved(rt, order.asked.t(), reply);
    save_moved(rt, path, file, order.satellite, reply.controller);
}

// The file with a fresh record of an orbit more, in the room; none where it is refused.
fn with_record<'a>(file: &[u8], room: &'a mut [u8], satellite: u32, set: Set) -> Option<&'a [u8]> {
    let fresh = Controller::start(set.build().ok()?);
    let size = fresh.save(file, room, satellite).ok()?;
    room.get(..size)
}

// A store of the three published orbits, fresh, in the room.
fn published(room: &mut [u8]) -> Option<&[u8]> {
    // fixed: a Vec may fail, and what the program says then would be new
    let mut one = [0u8; 1024];
    let mut two = [0u8; 1024];
    let first = with_record(EMPTY, &mut one, 8195, MOLNIYA)?;
    let second = with_record(first, &mut two, 24208, ITALSAT)?;
    with_record(second, room, 28129, NAVSTAR)
}

// Makes a store of the three published orbits. A file that is there is left alone.
pub fn example<R: Streams + Files>(rt: &R, path: &str) {
    // fixed, as in `published`
    let mut room = [0u8; 1024];
    let Some(bytes) = published(&mut room) else {
        put(
            rt,
            ERR,
            "station: the orbits that are built in cannot be saved\n",
        );
        return;
    };
    match create(rt, path) {
        Ok(file) => {
            if is_filled(rt, file, path, bytes) {
                put_saved(rt, path);
            }
        }
        Err(why) => fail(rt, path.as_bytes(), why),
    }
}

// The operator's program. With no arguments it shows a restart; see `USAGE` for the rest.
#![tactic(auto)]

mod answer;
mod files;
mod numbers;
mod orders;
mod parse;
mod question;
mod records;
mod restart;
mod say;
mod sets;

use elements::elements::{Periodic, Question};
use orders::{Asked, Order};
use say::{ERR, Streams, put, put_bytes};
use std::env::FillError;
use std::io;
use std::rt::{Env, Files};

// Numbers of the system's errors: EINVAL, ENAMETOOLONG and EILSEQ of Linux.
const INVALID: i32 = 22;

const NAME_TOO_LONG: i32 = 36;

const NOT_TEXT: i32 = 84;

// No command has more arguments, the program's own name among them.
const MOST: usize = 17;

const USAGE: &str = "usage: station                 shows a restart on a published orbit
       station example FILE    makes a store of three published orbits
       station list FILE       the satellites of a store
       station check FILE      examines each record of a store
       station ask FILE SATELLITE T [P22 P23 [the ten lunisolar numbers]]
                               the elements of a satellite at a time
       station save FILE SATELLITE T
                               moves a satellite's state to a time, in the store
T is in minutes since the satellite's epoch. P22 and P23 are the right ascension and the
argument of perigee there, in radians; without them they follow from their rates, and the
lunisolar numbers are 0. A number is a decimal such as -720 or 0.25, of at most 15 digits
and with no exponent, or 0x and the 16 hexadecimal digits of its bits.
";

// ---- the arguments

// How many arguments there are, the program's own name among them, counted to one too many.
// (A room of one byte: whether the argument is there is asked, not what it says.)
fn argument_count(rt: &impl Env) -> usize {
    (0..MOST + 1)
        .take_while(|i| !matches!(rt.arg(*i, &mut [0u8; 1]), Err(FillError::NotPresent)))
        .count()
}

// The argument at a place, which need not be text; empty where it is missing or too long for the room.
fn argument<'a>(rt: &impl Env, i: usize, room: &'a mut [u8]) -> &'a [u8] {
    match rt.arg(i, room) {
        Ok(n) => &room[..n],
        Err(_) => &[],
    }
}

// What the argument at a place stands for; none where it is no such thing, and then it says so.
fn parsed<T, F: FnOnce(&[u8]) -> Option<T>>(
    rt: &(impl Streams + Env),
    i: usize,
    parse: F,
    what: &str,
) -> Option<T>
    requires { F.IsAlwaysCallable parse }
{
    // fixed: a longer argument is refused by this size
    let mut room = [0u8; 256];
    let word = argument(rt, i, &mut room);
    let value = parse(word);
    if value.is_none() {
        put(rt, ERR, "station: '");
        put_bytes(rt, ERR, word);
        put(rt, ERR, format_args!("' is no {what}\n"));
    }
    value
}

fn number_at(rt: &(impl Streams + Env), i: usize) -> Option<f64> {
    parsed(
        rt,
        i,
        parse::number,
        "number: a decimal of at most 15 digits with no exponent, or 0x and 16 digits",
    )
}

fn satellite_at(rt: &(impl Streams + Env), i: usize) -> Option<u32> {
    parsed(
        rt,
        i,
        parse::satellite,
        "satellite: a whole number below 4294967296",
    )
}

// The numbers from T on, as many as were given; 0 for the others. None where one is no number.
fn numbers_from_t(rt: &(impl Streams + Env), count: usize) -> Option<[f64; 13]> {
    let mut numbers = [0.0; 13];
    for (i, number) in (4..count).zip(numbers.iter_mut()) {
        *number = number_at(rt, i)?;
    }
    Some(numbers)
}

fn periodic(x: [f64; 5]) -> Periodic {
    let [
        delta_eccentricity,
        delta_inclination,
        delta_mean_motion,
        p4,
        p5,
    ] = x;
    Periodic {
        delta_eccentricity,
        delta_inclination,
        delta_mean_motion,
        p4,
        p5,
    }
}

// An ask or a save, of so many arguments.
// (By their places: a pattern of thirteen would name the ten only to list them again.)
fn order_of(rt: &(impl Streams + Env), count: usize) -> Option<Order> {
    let satellite = satellite_at(rt, 3)?;
    let x = numbers_from_t(rt, count)?;
    let asked = if count == 5 {
        Asked::Time(x[0])
    } else {
        Asked::Whole(Question {
            t: x[0],
            p22: x[1],
            p23: x[2],
            solar: periodic([x[3], x[4], x[5], x[6], x[7]]),
            lunar: periodic([x[8], x[9], x[10], x[11], x[12]]),
        })
    };
    Some(Order { satellite, asked })
}

// ---- the file

// Files are named by text: any other name is refused as the system refuses what is no text.
fn path_of<'a>(rt: &(impl Streams + Env), room: &'a mut [u8]) -> Option<&'a str> {
    let n = match rt.arg(2, room) {
        Ok(n) => n,
        Err(e) => {
            let why = match e {
                FillError::NotPresent => INVALID,
                FillError::TooLong => NAME_TOO_LONG,
            };
            files::fail(rt, b"the file's name", io::Error::from_raw_os_error(why));
            return None;
        }
    };
    let name = &room[..n];
    let path = std::str::from_utf8(name).ok();
    if path.is_none() {
        files::fail(rt, name, io::Error::from_raw_os_error(NOT_TEXT));
    }
    path
}

// The bytes of a file, in the room; none where they cannot be had, and then it says why. A store of 128
// records has at most 40,456 bytes, and a file on disk comes whole in one read.
fn bytes_of<'a>(rt: &(impl Streams + Files), path: &str, room: &'a mut [u8]) -> Option<&'a [u8]> {
    match files::read(rt, path, room) {
        Ok(Some(bytes)) => Some(bytes),
        Ok(None) => {
            put(
                rt,
                ERR,
                "station: the file has more than 65,536 bytes, or comes in parts; a store has at most 40,456\n",
            );
            None
        }
        Err(why) => {
            files::fail(rt, path.as_bytes(), why);
            None
        }
    }
}

// ---- the commands

// Does what a word says, which has so many arguments with it and the program's name; none where it is given
// up, and then it has said why.
fn obey<R: Streams + Files + Env + Alloc>(rt: &R, word: &[u8], count: usize) -> Option<()> {
    // fixed: a longer name, and a longer file, are refused by these sizes
    let mut name = [0u8; 4096];
    let mut room = [0u8; 65536];
    match (word, count) {
        (b"example", 3) => orders::example(rt, path_of(rt, &mut name)?),
        (b"list", 3) => {
            let path = path_of(rt, &mut name)?;
            records::list(rt, bytes_of(rt, path, &mut room)?);
        }
        (b"check", 3) => {
            let path = path_of(rt, &mut name)?;
            records::check(rt, bytes_of(rt, path, &mut room)?);
        }
        (b"save", 5) => {
            let order = order_of(rt, count)?;
            let path = path_of(rt, &mut name)?;
            orders::save(rt, path, bytes_of(rt, path, &mut room)?, order);
        }
        (b"ask", 5 | 7 | 17) => {
            let order = order_of(rt, count)?;
            let path = path_of(rt, &mut name)?;
            orders::ask(rt, bytes_of(rt, path, &mut room)?, order);
        }
        _ => put(rt, ERR, USAGE),
    }
    Some(())
}

fn run<R: Streams + Files + Env + Alloc>(rt: &R) {
    let count = argument_count(rt);
    if count < 2 {
        restart::show(rt);
        return;
    }
    // fixed: a longer word is no command
    let mut word = [0u8; 16];
    let _ = obey(rt, argument(rt, 1, &mut word), count);
}

fn main(rt: HostRuntime) {
    run(&rt);
}

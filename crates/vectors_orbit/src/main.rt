// Replays data/orbit.txt on the crates of orbits: a call to a line, with the refusal number and what it
// must answer. Writes how many lines passed, and the first that did not.
#![tactic(auto)]

ghost use Rattle.std.specs.Prelude.{◌<◌, ◌^◌};

use constants::build::build;
use constants::geometry::{Bodies, ThirdBody, geometry_of};
use constants::given::{Dots, Given};
use elements::elements::{Elements, ElementsError, Periodic, Question};
use floats::finite::{bits_of, of_bits};
use orbit::class::class_of;
use orbit::model::{Geopotential, SiderealTime, sidereal_time};
use orbit::propagator::{Constants, Orbit};
use record::{constants_of, kind_of, kind_of_class, numbers_of};
use replay::tally::Tally;
use replay::word::{in_decimal, value};
use resonance::ask::{Asked, ask};
use resonance::state::{Refused, ResonanceState, initial_state};
use std::alloc::{AllocError, Global};
use std::io::Read;
use std::{fs, io};

// A file that is longer is cut, and its tally falls short.
const ROOM: u64 = 1048576;

// The number of a word, or None where it is none.
type Word = Option<u64>;

// ---- what a line gives

// The float of a word. What is no number is a NaN.
fn float(word: Word) -> f64 {
    word.map_or(f64::NAN, of_bits)
}

// The kind of constants, a number as `constants_of` takes it. Any above 2 is 0.
fn kind(word: Word) -> u32 {
    match word {
        Some(1) => 1,
        Some(2) => 2,
        _ => 0,
    }
}

fn which(word: Word) -> SiderealTime {
    match word {
        Some(0) => SiderealTime::Iau,
        _ => SiderealTime::Afspc,
    }
}

// The floats that words begin with, and the words behind them.
fn split_floats<const N: usize>(words: &[Word]) -> Option<([f64; N], &[Word])>
    requires { N < 2 ^ 32 } // so that the array fits in memory
{
    let (floats, rest) = words.split_first_chunk::<N>()?;
    Some((floats.map(float), rest))
}

// (Lists here and below in the order of the file; C's is the same, but is C's to change.)
fn split_geopotential(words: &[Word]) -> Option<(Geopotential, &[Word])> {
    let ([ae, ke, j2, j3, j4], rest) = split_floats::<5>(words)?;
    Some((Geopotential { ae, ke, j2, j3, j4 }, rest))
}

fn split_orbit(words: &[Word]) -> Option<(Orbit, &[Word])> {
    let (
        [
            inclination,
            right_ascension,
            eccentricity,
            argument_of_perigee,
            mean_anomaly,
            mean_motion,
        ],
        rest,
    ) = split_floats::<6>(words)?;
    let orbit = Orbit {
        inclination,
        right_ascension,
        eccentricity,
        argument_of_perigee,
        mean_anomaly,
        mean_motion,
    };
    Some((orbit, rest))
}

fn split_given(words: &[Word]) -> Option<(Given, &[Word])> {
    let ([epoch, p1, a0, c1, c4, k0, k1, k14, p14, p15], rest) = split_floats::<10>(words)?;
    let given = Given {
        epoch,
        p1,
        a0,
        c1,
        c4,
        k0,
        k1,
        k14,
        p14,
        p15,
    };
    Some((given, rest))
}

fn split_dots(words: &[Word]) -> Option<(Dots, &[Word])> {
    let (
        [
            inclination,
            right_ascension,
            eccentricity,
            argument_of_perigee,
            mean_anomaly,
        ],
        rest,
    ) = split_floats::<5>(words)?;
    let dots = Dots {
        inclination,
        right_ascension,
        eccentricity,
        argument_of_perigee,
        mean_anomaly,
    };
    Some((dots, rest))
}

// Kind, flag and 34 numbers.
fn split_constants(words: &[Word]) -> Option<(Constants, &[Word])> {
    let ([kind_word, flag], words) = words.split_first_chunk::<2>()?;
    let (numbers, rest) = split_floats::<34>(words)?;
    Some((
        constants_of(kind(*kind_word), *flag == Some(1), &numbers),
        rest,
    ))
}

fn split_state(words: &[Word]) -> Option<(ResonanceState, &[Word])> {
    let ([t, mean_motion, lambda], rest) = split_floats::<3>(words)?;
    let state = ResonanceState {
        t,
        mean_motion,
        lambda,
    };
    Some((state, rest))
}

fn split_periodic(words: &[Word]) -> Option<(Periodic, &[Word])> {
    let (
        [
            delta_eccentricity,
            delta_inclination,
            delta_mean_motion,
            p4,
            p5,
        ],
        rest,
    ) = split_floats::<5>(words)?;
    let periodic = Periodic {
        delta_eccentricity,
        delta_inclination,
        delta_mean_motion,
        p4,
        p5,
    };
    Some((periodic, rest))
}

fn split_question(words: &[Word]) -> Option<(Question, &[Word])> {
    let ([t, p22, p23], words) = split_floats::<3>(words)?;
    let (solar, words) = split_periodic(words)?;
    let (lunar, rest) = split_periodic(words)?;
    let question = Question {
        t,
        p22,
        p23,
        solar,
        lunar,
    };
    Some((question, rest))
}

// ---- what a line tells

fn told<const N: usize>(floats: [f64; N]) -> [Word; N]
    requires { N < 2 ^ 32 } // so that the array fits in memory
{
    floats.map(|x| Some(bits_of(x)))
}

fn refusal(number: u32) -> Word {
    Some(in_decimal(number))
}

fn told_state(s: ResonanceState) -> [Word; 3] {
    told([s.t, s.mean_motion, s.lambda])
}

// 1 and the state, or 0 and three zeros.
// (Its like over plain numbers is in vectors_store: `replay`, which both share, knows no states.)
fn told_maybe_state(state: Option<ResonanceState>) -> [Word; 4] {
    match state {
        None => [Some(0); 4],
        Some(s) => {
            let [t, mean_motion, lambda] = told_state(s);
            [Some(1), t, mean_motion, lambda]
        }
    }
}

fn told_body(b: ThirdBody) -> [Word; 7] {
    told([
        b.inclination_sine,
        b.inclination_cosine,
        b.delta_right_ascension_sine,
        b.delta_right_ascension_cosine,
        b.argument_of_perigee_sine,
        b.argument_of_perigee_cosine,
        b.mean_anomaly_0,
    ])
}

fn told_elements(e: Elements) -> [Word; 12] {
    told([
        e.orbit.inclination,
        e.orbit.right_ascension,
        e.orbit.eccentricity,
        e.orbit.argument_of_perigee,
        e.orbit.mean_anomaly,
        e.orbit.mean_motion,
        e.a,
        e.p32,
        e.p33,
        e.p34,
        e.p35,
        e.p36,
    ])
}

// ---- one case: the words behind those that tell what the call answers, and None where they tell something else

// class: mean motion, eccentricity; the kind
fn after_class(words: &[Word]) -> Option<&[Word]> {
    let ([n, e], words) = split_floats::<2>(words)?;
    let kind = kind_of_class(class_of(n, e));
    words.strip_prefix(&[Some(kind.into())])
}

// sidereal: 0 IAU or 1 AFSPC, epoch; refusal, sidereal time
fn after_sidereal(words: &[Word]) -> Option<&[Word]> {
    let (which_word, words) = words.split_first()?;
    let ([epoch], words) = split_floats::<1>(words)?;
    match sidereal_time(which(*which_word), epoch) {
        Ok(theta) => words.strip_prefix(&[refusal(0), Some(bits_of(theta))]),
        Err(e) => words.strip_prefix(&[refusal(e.number())]),
    }
}

// geometry: right ascension, epoch; refusal, the seven numbers of the Sun and those of the Moon
fn after_geometry(words: &[Word]) -> Option<&[Word]> {
    let ([right_ascension, epoch], words) = split_floats::<2>(words)?;
    match geometry_of(right_ascension, epoch) {
        Ok(Bodies { solar, lunar }) => words
            .strip_prefix(&[refusal(0)])?
            .strip_prefix(&told_body(solar))?
            .strip_prefix(&told_body(lunar)),
        Err(e) => words.strip_prefix(&[refusal(e.number())]),
    }
}

// build: 0 IAU or 1 AFSPC, flag, 31 numbers; refusal, kind, 34 numbers
fn after_build(words: &[Word]) -> Option<&[Word]> {
    let ([which_word, flag], words) = words.split_first_chunk::<2>()?;
    let (geopotential, words) = split_geopotential(words)?;
    let (orbit_0, words) = split_orbit(words)?;
    let (given, words) = split_given(words)?;
    let (solar, words) = split_dots(words)?;
    let (lunar, words) = split_dots(words)?;
    let afspc = *flag == Some(1);
    match build(
        geopotential,
        which(*which_word),
        orbit_0,
        given,
        solar,
        lunar,
        afspc,
    ) {
        Ok(c) => words
            .strip_prefix(&[refusal(0), Some(kind_of(c).into())])?
            .strip_prefix(&told(numbers_of(c))),
        Err(e) => words.strip_prefix(&[refusal(e.number())]),
    }
}

// fresh: kind, flag, 34 numbers; 1 and the state, or 0 and zeros
fn after_fresh(words: &[Word]) -> Option<&[Word]> {
    let (c, words) = split_constants(words)?;
    words.strip_prefix(&told_maybe_state(initial_state(c)))
}

// step: kind, flag, 34 numbers, 1 going back, state; refusal, state
fn after_step(words: &[Word]) -> Option<&[Word]> {
    let (c, words) = split_constants(words)?;
    let (back, words) = words.split_first()?;
    let (state, words) = split_state(words)?;
    let (number, state) = match state.step(c, *back == Some(1)) {
        Ok(state) => (0, state),
        Err(Refused { fault, state }) => (fault.number(), state),
    };
    words
        .strip_prefix(&[refusal(number)])?
        .strip_prefix(&told_state(state))
}

// ask: kind, flag, 34 numbers, 1 with a state, the state, 13 numbers; refusal, steps, 1 with a state,
// the state, and the elements' twelve numbers or the two that 10 and 11 carry
fn after_ask(words: &[Word]) -> Option<&[Word]> {
    let (c, words) = split_constants(words)?;
    let (held, words) = words.split_first()?;
    let (state, words) = split_state(words)?;
    let (question, words) = split_question(words)?;
    let state = (*held == Some(1)).then_some(state);
    let Asked {
        answer,
        state,
        steps,
    } = ask(state, c, question);
    let number = match answer {
        Err(fault) => fault.number(),
        Ok(Err(e)) => e.number(),
        Ok(Ok(_)) => 0,
    };
    let words = words
        .strip_prefix(&[refusal(number), Some(steps.into())])?
        .strip_prefix(&told_maybe_state(state))?;
    match answer {
        Ok(Ok(e)) => words.strip_prefix(&told_elements(e)),
        Ok(
            Err(
                ElementsError::OutOfRangeEccentricity { eccentricity, t }
                | ElementsError::OutOfRangePerturbedEccentricity { eccentricity, t },
            ),
        ) => words.strip_prefix(&told([eccentricity, t])),
        _ => Some(words),
    }
}

// The same of the call that a line names.
fn after_case<'a>(name: &[u8], words: &'a [Word]) -> Option<&'a [Word]> {
    match name {
        b"ask" => after_ask(words),
        b"step" => after_step(words),
        b"fresh" => after_fresh(words),
        b"build" => after_build(words),
        b"geometry" => after_geometry(words),
        b"sidereal" => after_sidereal(words),
        b"class" => after_class(words),
        _ => None,
    }
}

// Whether the call that a line names answers what its words tell, one and all.
fn passes(alloc: Global, line: &[u8]) -> Result<bool, AllocError> {
    let mut parts = line.split(|b| *b == b' ');
    let name = parts.next().unwrap_or_default();
    // no case has more than 80 words: one too many tells of a longer line
    let words: Vec<Word> = parts.take(81).map(value).collect(alloc)?;
    Ok(after_case(name, &words).is_some_and(|rest| rest.is_empty()))
}

// (Its like is in vectors_floats: in the library they share, the loop would need a clause on the closure
// that judges a line.)
fn replay<R: Print + AllocGlobal>(rt: &R, text: &[u8]) -> io::Result<()> {
    let mut tally = Tally::default();
    for line in text.split(|b| *b == b'\n') {
        if !line.is_empty() && !line.starts_with(b"#") {
            tally.count(rt, line, passes(rt.alloc(), line)?)?;
        }
    }
    let Tally { passed, total } = tally;
    println!(rt; "orbit {passed} passed of {total}")
}

// The same four lines in four programs: they take the heap, which the library that these share may not.
fn main(rt: HostRuntime) -> io::Result<()> {
    let mut text = Vec::with_capacity(rt.alloc(), ROOM as usize)?;
    let file = fs::open(&rt, "orbit.txt")?;
    file.take(ROOM).read_to_end(&mut text)?;
    replay(&rt, &text)
}

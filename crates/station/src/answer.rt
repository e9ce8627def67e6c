// What an ask answers, in words: elements by value and bits, or a refusal.
use crate::numbers::{Bits, Both, Decimal};
use crate::say::{ERR, OUT, Refusal, Streams, put, refuse};
use elements::elements::{Elements, ElementsError};
use floats::finite::bits_of;
use resonance::ask::Answer;

// Padded here: with a width, std writes the spaces apart, and each write may fail and is told of.
const NAMES: [&str; 12] = [
    "inclination          ",
    "right ascension      ",
    "eccentricity         ",
    "argument of perigee  ",
    "mean anomaly         ",
    "mean motion          ",
    "a                    ",
    "p32                  ",
    "p33                  ",
    "p34                  ",
    "p35                  ",
    "p36                  ",
];

// The twelve numbers, in the order of their names, which is this program's. (`are_same` wants them without
// the names.)
fn numbers(e: Elements) -> [f64; 12] {
    let orbit = e.orbit;
    [
        orbit.inclination,
        orbit.right_ascension,
        orbit.eccentricity,
        orbit.argument_of_perigee,
        orbit.mean_anomaly,
        orbit.mean_motion,
        e.a,
        e.p32,
        e.p33,
        e.p34,
        e.p35,
        e.p36,
    ]
}

// The twelve numbers, a line to each.
pub fn put_elements(rt: &impl Streams, e: Elements) {
    for (name, x) in NAMES.iter().zip(numbers(e)) {
        put(rt, OUT, format_args!("{name}{}\n", Both(x)));
    }
}

// Refusals 10 and 11 carry an eccentricity and the time.
fn refuse_elements(rt: &impl Streams, error: ElementsError) {
    let number = error.number();
    match error {
        ElementsError::OutOfRangeEccentricity { eccentricity, t }
        | ElementsError::OutOfRangePerturbedEccentricity { eccentricity, t } => put(
            rt,
            ERR,
            format_args!(
                "{}: {:.9} ({}) at {:.3} minutes\n",
                Refusal(number),
                Decimal(eccentricity),
                Bits(eccentricity),
                Decimal(t)
            ),
        ),
        ElementsError::AngleRefused | ElementsError::ElementsNotFinite => refuse(rt, number),
    }
}

// The elements that an ask answers; none where it is refused, and then it says why.
pub fn elements_of(rt: &impl Streams, answer: Answer) -> Option<Elements> {
    match answer {
        Ok(Ok(e)) => return Some(e),
        Ok(Err(error)) => refuse_elements(rt, error),
        Err(fault) => refuse(rt, fault.number()),
    }
    None
}

// Whether the twelve numbers agree in every bit.
pub fn are_same(e: Elements, f: Elements) -> bool {
    numbers(e).map(bits_of) == numbers(f).map(bits_of)
}

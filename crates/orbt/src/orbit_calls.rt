// The calls on orbits. Constants travel as their kind, the AFSPC flag and 34 floats in the order of a
// store's body; a state as its three floats; a question as 13 floats. Kinds, flags, `held` and
// refusals are numbers, with their pointers beside them, as C takes them.
// Lists are made and taken apart by functions here: a `From` could stand in the types' crates alone, and
// the order is C's.
ghost use Rattle.std.specs.Prelude.{false, ◌≡◌, ◌+◌, ◌≤◌};
ghost use Rattle.std.specs.Option.{option_map_or};
ghost use Rattle.std.specs.Result.{result_unwrap_or};
ghost use Rattle.orbit.specs.Class.{class_of};
ghost use Rattle.orbit.specs.Model.{sidereal_of, number as sidereal_number};
ghost use Rattle.constants.specs.Geometry.{geometry_of, number as geometry_number};
ghost use Rattle.resonance.specs.State.{fresh};
ghost use Rattle.orbt.specs.Answer.{result_map_or};
ghost use Rattle.orbt.specs.Orbits.{which_of as which_named, body_list, bodies_list, dots_at as dots_from, built_from, BuildLeaves, state_of as state_in, state_list, held_number, maybe_of, periodic_at as periodic_from, question_of as question_in, elements_list, is_wrong as is_wrong_of, AskLeaves, StepLeaves};
ghost use Rattle.record.specs.Record.{class_kind, constants_of};

use crate::answer::put;
use constants::build::build;
use constants::error::BuildError;
use constants::geometry::{Bodies, ThirdBody, geometry_of};
use constants::given::{Dots, Given};
use elements::elements::{Elements, ElementsError, Periodic, Question};
use orbit::class::class_of;
use orbit::model::{Geopotential, SiderealError, SiderealTime, sidereal_time};
use orbit::propagator::{Constants, Orbit};
use record::{constants_of, kind_of, kind_of_class, numbers_of};
use resonance::ask::ask;
use resonance::state::{ResonanceState, initial_state};

// ---- class and sidereal time

// 0 non-resonant, 1 one-day, 2 half-day, of mean motion n in rad.min⁻¹ and eccentricity e.
#[unsafe(no_mangle)]
pub extern "C" fn orbt_class(n: f64, e: f64) -> u32
    ensures { result ≡ class_kind (class_of n e) }
{
    kind_of_class(class_of(n, e))
}

// 0 names the IAU expression, any other number the AFSPC one.
fn which_of(which: u32) -> SiderealTime
    ensures { result ≡ which_named which }
{
    match which {
        0 => SiderealTime::Iau,
        _ => SiderealTime::Afspc,
    }
}

// The sidereal time at an epoch in years since 1 January 2000 12h, or 3 or 13.
#[unsafe(no_mangle)]
pub extern "C" fn orbt_sidereal_time(which: u32, epoch: f64, theta: &mut f64) -> u32
    ensures { (result ≡ sidereal_number (sidereal_of (which_named which) epoch))
        × (theta.new ≡ result_unwrap_or (sidereal_of (which_named which) epoch) theta.old) }
{
    put(
        sidereal_time(which_of(which), epoch).map_err(SiderealError::number),
        theta,
    )
}

// ---- geometry

fn body_list(b: ThirdBody) -> [f64; 7]
    ensures { result ≡ body_list b }
{
    [
        b.inclination_sine,
        b.inclination_cosine,
        b.delta_right_ascension_sine,
        b.delta_right_ascension_cosine,
        b.argument_of_perigee_sine,
        b.argument_of_perigee_cosine,
        b.mean_anomaly_0,
    ]
}

fn bodies_list(b: Bodies) -> [f64; 14]
    ensures { result ≡ bodies_list b }
{
    let mut list = [0.0; 14];
    list[..7].copy_from_slice(&body_list(b.solar));
    list[7..].copy_from_slice(&body_list(b.lunar));
    list
}

// The seven numbers of the Sun and the seven of the Moon, or 3, 9 or 13.
#[unsafe(no_mangle)]
pub extern "C" fn orbt_geometry(right_ascension: f64, epoch: f64, bodies: &mut [f64; 14]) -> u32
    ensures { (result ≡ geometry_number (geometry_of right_ascension epoch))
        × (bodies.new ≡ result_map_or bodies_list (geometry_of right_ascension epoch) bodies.old) }
{
    put(
        geometry_of(right_ascension, epoch)
            .map(bodies_list)
            .map_err(BuildError::number),
        bodies,
    )
}

// ---- build

// The five rates of a body, from a place on.
fn dots_at(x: &[f64; 31], i: usize) -> Dots
    requires { i ≤ 26 }
    ensures { result ≡ dots_from x.now i }
{
    Dots {
        inclination: x[i],
        right_ascension: x[i + 1],
        eccentricity: x[i + 2],
        argument_of_perigee: x[i + 3],
        mean_anomaly: x[i + 4],
    }
}

// The build of 31 floats: model, orbit, what is given beside them, and the rates of Sun and Moon.
#[tactic(auto, unfolding(crate::specs::Orbits::built_from))]
fn built_from(which: u32, flag: bool, x: &[f64; 31]) -> Result<Constants, BuildError>
    ensures { result ≡ built_from which flag x.now }
{
    let [
        ae,
        ke,
        j2,
        j3,
        j4,
        inclination,
        right_ascension,
        eccentricity,
        argument_of_perigee,
        mean_anomaly,
        mean_motion,
        epoch,
        p1,
        a0,
        c1,
        c4,
        k0,
        k1,
        k14,
        p14,
        p15,
        ..
    ] = *x;
    build(
        Geopotential { ae, ke, j2, j3, j4 },
        which_of(which),
        Orbit {
            inclination,
            right_ascension,
            eccentricity,
            argument_of_perigee,
            mean_anomaly,
            mean_motion,
        },
        Given {
            epoch,
            p1,
            a0,
            c1,
            c4,
            k0,
            k1,
            k14,
            p14,
            p15,
        },
        dots_at(x, 21),
        dots_at(x, 26),
        flag,
    )
}

// Kind and constants of an orbit, or 3, 9 or 13; 16 where the flag is neither 0 nor 1.
#[unsafe(no_mangle)]
pub extern "C" fn orbt_build(
    which: u32,
    flag: u32,
    given: &[f64; 31],
    kind: &mut u32,
    constants: &mut [f64; 34],
) -> u32
    ensures { BuildLeaves which flag given.now kind.old constants.old result kind.new constants.new }
{
    if flag > 1 {
        return 16;
    }
    match built_from(which, flag == 1, given) {
        Ok(c) => {
            *kind = kind_of(c);
            *constants = numbers_of(c);
            0
        }
        Err(e) => e.number(),
    }
}

// ---- state

fn state_of(x: [f64; 3]) -> ResonanceState
    ensures { result ≡ state_in x }
{
    let [t, mean_motion, lambda] = x;
    ResonanceState {
        t,
        mean_motion,
        lambda,
    }
}

pub(crate) fn state_list(s: ResonanceState) -> [f64; 3]
    ensures { result ≡ state_list s }
{
    [s.t, s.mean_motion, s.lambda]
}

// The fresh state: 1 where the kind has one, 0 where it has none.
#[unsafe(no_mangle)]
pub extern "C" fn orbt_fresh(kind: u32, constants: &[f64; 34], state: &mut [f64; 3]) -> u32
    ensures { (result ≡ held_number (fresh (constants_of kind false constants.now)))
        × (state.new ≡ option_map_or state_list (fresh (constants_of kind false constants.now)) state.old) }
{
    match initial_state(constants_of(kind, false, constants)) {
        Some(s) => {
            *state = state_list(s);
            1
        }
        None => 0,
    }
}

// ---- ask

// The twelve numbers: the orbit's six, a, and p32 to p36.
fn elements_list(e: Elements) -> [f64; 12]
    ensures { result ≡ elements_list e }
{
    [
        e.orbit.inclination,
        e.orbit.right_ascension,
        e.orbit.eccentricity,
        e.orbit.argument_of_perigee,
        e.orbit.mean_anomaly,
        e.orbit.mean_motion,
        e.a,
        e.p32,
        e.p33,
        e.p34,
        e.p35,
        e.p36,
    ]
}

// The five numbers of the Sun or the Moon, from a place on.
fn periodic_at(x: &[f64; 13], i: usize) -> Periodic
    requires { i ≤ 8 }
    ensures { result ≡ periodic_from x.now i }
{
    Periodic {
        delta_eccentricity: x[i],
        delta_inclination: x[i + 1],
        delta_mean_motion: x[i + 2],
        p4: x[i + 3],
        p5: x[i + 4],
    }
}

// t, p22, p23, and the five numbers of the Sun and of the Moon.
fn question_of(x: &[f64; 13]) -> Question
    ensures { result ≡ question_in x.now }
{
    let [t, p22, p23, ..] = *x;
    Question {
        t,
        p22,
        p23,
        solar: periodic_at(x, 3),
        lunar: periodic_at(x, 8),
    }
}

pub(crate) fn maybe_state(held: u32, x: [f64; 3]) -> Option<ResonanceState>
    ensures { result ≡ maybe_of held x }
{
    (held == 1).then_some(state_of(x))
}

// Whether a kind is above 2, or a flag above 1.
pub(crate) fn is_wrong(kind: u32, flag: u32, held: u32) -> bool
    ensures { result ≡ is_wrong_of kind flag held }
{
    (kind > 2) | (flag > 1) | (held > 1)
}

// An ask of constants, with a state where `held` is 1: the elements' twelve numbers, the state and the
// steps; or 1 to 12, of which 10 and 11 carry two numbers; 16 where kind, flag or `held` is wrong.
#[unsafe(no_mangle)]
pub extern "C" fn orbt_ask(
    kind: u32,
    flag: u32,
    constants: &[f64; 34],
    held: u32,
    state: &mut [f64; 3],
    question: &[f64; 13],
    elements: &mut [f64; 12],
    steps: &mut u32,
) -> u32
    ensures { AskLeaves kind flag constants.now held state.old question.now elements.old steps.old
        result state.new elements.new steps.new }
{
    if is_wrong(kind, flag, held) {
        return 16;
    }
    let c = constants_of(kind, flag == 1, constants);
    let asked = ask(maybe_state(held, *state), c, question_of(question));
    if let Some(moved) = asked.state {
        *state = state_list(moved);
    }
    *steps = asked.steps;
    match asked.answer {
        Ok(Ok(found)) => {
            *elements = elements_list(found);
            0
        }
        Ok(Err(e)) => {
            if let ElementsError::OutOfRangeEccentricity { eccentricity, t }
            | ElementsError::OutOfRangePerturbedEccentricity { eccentricity, t } = e
            {
                elements[..2].copy_from_slice(&[eccentricity, t]);
            }
            e.number()
        }
        Err(fault) => fault.number(),
    }
}

// ---- step

// One step of 720 minutes, back where `back` is 1; or 3, 4, 6 or 8; 16 where kind or `back` is wrong.
#[unsafe(no_mangle)]
pub extern "C" fn orbt_step(
    kind: u32,
    constants: &[f64; 34],
    back: u32,
    state: &mut [f64; 3],
) -> u32
    ensures { StepLeaves kind constants.now back state.old result state.new }
{
    if is_wrong(kind, 0, back) {
        return 16;
    }
    let c = constants_of(kind, false, constants);
    match state_of(*state).step(c, back == 1) {
        Ok(next) => {
            *state = state_list(next);
            0
        }
        Err(refused) => {
            *state = state_list(refused.state);
            refused.fault.number()
        }
    }
}

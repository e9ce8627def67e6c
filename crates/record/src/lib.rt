// The numbers of an orbit's constants in the order of a store's body, there and back: what the store
// and the C interface share.
#![tactic(auto)]

ghost use Rattle.std.specs.Prelude.{◌≡◌};
ghost use Rattle.record.specs.Record.{kind_of, class_kind, numbers_of, resonant_of, constants_of};

use orbit::class::Class;
use orbit::model::Geopotential;
use orbit::propagator::{Constants, Orbit, Resonance, Resonant};

// The kind that constants carry: 0 non-resonant, 1 one-day, 2 half-day. Kinds are numbers in this crate: a body of a
// file and the C interface have them, and `constants_of` takes any.
pub fn kind_of(c: Constants) -> u32
    ensures { result ≡ kind_of c.resonant }
{
    match c.resonant {
        Resonant::No { .. } => 0,
        Resonant::Yes {
            resonance: Resonance::OneDay { .. },
            ..
        } => 1,
        Resonant::Yes {
            resonance: Resonance::HalfDay { .. },
            ..
        } => 2,
    }
}

// The kind that constants of a class carry. No `From<Class> for u32`: that impl could stand in `orbit` alone, and these
// numbers are the file's.
pub fn kind_of_class(class: Class) -> u32
    ensures { result ≡ class_kind class }
{
    match class {
        Class::NonResonant => 0,
        Class::OneDay => 1,
        Class::HalfDay => 2,
    }
}

// The numbers of the constants: 21, 26 or 34 by the kind, and then zeros.
pub fn numbers_of(c: Constants) -> [f64; 34]
    ensures { result ≡ numbers_of c }
{
    let mut numbers = [0.0; 34];
    numbers[..20].copy_from_slice(&[
        c.geopotential.ae,
        c.geopotential.ke,
        c.geopotential.j2,
        c.geopotential.j3,
        c.geopotential.j4,
        c.orbit_0.inclination,
        c.orbit_0.right_ascension,
        c.orbit_0.eccentricity,
        c.orbit_0.argument_of_perigee,
        c.orbit_0.mean_anomaly,
        c.orbit_0.mean_motion,
        c.right_ascension_dot,
        c.argument_of_perigee_dot,
        c.mean_anomaly_dot,
        c.c1,
        c.c4,
        c.k0,
        c.k1,
        c.eccentricity_dot,
        c.inclination_dot,
    ]);
    match c.resonant {
        Resonant::No { a0 } => numbers[20] = a0,
        Resonant::Yes {
            lambda_0,
            lambda_dot_0,
            sidereal_time_0,
            resonance,
        } => {
            numbers[20..23].copy_from_slice(&[lambda_0, lambda_dot_0, sidereal_time_0]);
            match resonance {
                Resonance::OneDay { dr1, dr2, dr3 } => {
                    numbers[23..26].copy_from_slice(&[dr1, dr2, dr3])
                }
                Resonance::HalfDay {
                    d2201,
                    d2211,
                    d3210,
                    d3222,
                    d4410,
                    d4422,
                    d5220,
                    d5232,
                    d5421,
                    d5433,
                    k14,
                } => numbers[23..].copy_from_slice(&[
                    d2201, d2211, d3210, d3222, d4410, d4422, d5220, d5232, d5421, d5433, k14,
                ]),
            }
        }
    }
    numbers
}

// What the kind has past the twenty numbers: 1 one-day, 2 half-day, any other non-resonant.
// (x[20] to x[25] by their places: a pattern for them would have more `_` than names.)
#[tactic(auto, unfolding(crate::specs::Record::resonant_of))]
fn resonant_of(kind: u32, x: &[f64; 34]) -> Resonant
    ensures { result ≡ resonant_of kind x.now }
{
    let resonance = match kind {
        1 => Resonance::OneDay {
            dr1: x[23],
            dr2: x[24],
            dr3: x[25],
        },
        2 => {
            let [
                ..,
                d2201,
                d2211,
                d3210,
                d3222,
                d4410,
                d4422,
                d5220,
                d5232,
                d5421,
                d5433,
                k14,
            ] = *x;
            Resonance::HalfDay {
                d2201,
                d2211,
                d3210,
                d3222,
                d4410,
                d4422,
                d5220,
                d5232,
                d5421,
                d5433,
                k14,
            }
        }
        _ => return Resonant::No { a0: x[20] },
    };
    Resonant::Yes {
        lambda_0: x[20],
        lambda_dot_0: x[21],
        sidereal_time_0: x[22],
        resonance,
    }
}

// The constants of a kind, a flag and the numbers.
#[tactic(auto, unfolding(crate::specs::Record::constants_of))]
pub fn constants_of(kind: u32, afspc_compatibility_mode: bool, x: &[f64; 34]) -> Constants
    ensures { result ≡ constants_of kind afspc_compatibility_mode x.now }
{
    let [
        ae,
        ke,
        j2,
        j3,
        j4,
        inclination,
        right_ascension,
        eccentricity,
        argument_of_perigee,
        mean_anomaly,
        mean_motion,
        right_ascension_dot,
        argument_of_perigee_dot,
        mean_anomaly_dot,
        c1,
        c4,
        k0,
        k1,
        eccentricity_dot,
        inclination_dot,
        ..
    ] = *x;
    Constants {
        geopotential: Geopotential { ae, ke, j2, j3, j4 },
        orbit_0: Orbit {
            inclination,
            right_ascension,
            eccentricity,
            argument_of_perigee,
            mean_anomaly,
            mean_motion,
        },
        right_ascension_dot,
        argument_of_perigee_dot,
        mean_anomaly_dot,
        c1,
        c4,
        k0,
        k1,
        eccentricity_dot,
        inclination_dot,
        afspc_compatibility_mode,
        resonant: resonant_of(kind, x),
    }
}

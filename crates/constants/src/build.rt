// The build: from the numbers given to the constants of an orbit, or a refusal.
ghost use Rattle.std.specs.Prelude.{◌≡◌};
ghost use Rattle.constants.specs.Build.{all_finite, one_day_resonant, half_day_resonant, kind_of, constants_of, built_of};

use crate::error::BuildError;
use crate::given::{Dots, Given, sum};
use crate::longitude::{
    half_day_lambda_0, half_day_lambda_dot_0, one_day_lambda_0, one_day_lambda_dot_0,
};
use coefficients::{half_day, one_day};
use floats::trig::sin;
use orbit::class::{Class, class_of};
use orbit::model::{Geopotential, SiderealTime, epoch_to_sidereal_time};
use orbit::propagator::{Constants, Orbit, Resonant};

// Whether every number given is finite, used or not.
#[tactic(auto, unfolding(crate::specs::Build::all_finite))]
fn is_finite(
    geopotential: Geopotential,
    orbit_0: Orbit,
    given: Given,
    solar: Dots,
    lunar: Dots,
) -> bool
    ensures { result ≡ all_finite geopotential orbit_0 given solar lunar }
{
    geopotential.is_finite()
        & orbit_0.is_finite()
        & given.is_finite()
        & solar.is_finite()
        & lunar.is_finite()
}

// A one-day orbit, from the sine of its inclination and the sidereal time. (Orbit, numbers given and
// rates come one by one, as the Rust has them: each function would only take a struct of the three apart.)
fn one_day_resonant(orbit_0: Orbit, given: Given, dots: Dots, theta: f64, sine: f64) -> Resonant
    ensures { result ≡ one_day_resonant orbit_0 given dots theta sine }
{
    Resonant::Yes {
        lambda_0: one_day_lambda_0(orbit_0, theta),
        lambda_dot_0: one_day_lambda_dot_0(orbit_0, given, dots),
        sidereal_time_0: theta,
        resonance: one_day::coefficients(orbit_0, given.p1, given.a0, sine),
    }
}

// A half-day orbit, from the sine of its inclination and the sidereal time.
fn half_day_resonant(orbit_0: Orbit, given: Given, dots: Dots, theta: f64, sine: f64) -> Resonant
    ensures { result ≡ half_day_resonant orbit_0 given dots theta sine }
{
    Resonant::Yes {
        lambda_0: half_day_lambda_0(orbit_0, theta),
        lambda_dot_0: half_day_lambda_dot_0(orbit_0, given, dots),
        sidereal_time_0: theta,
        resonance: half_day::coefficients(orbit_0, given.p1, given.a0, given.k14, sine),
    }
}

// The kind by the class of the orbit: `a0` is kept, or the numbers of its resonance are formed. None
// where that needs a sine that is refused.
// (Sine and sidereal time in both resonant arms: before the match, a non-resonant orbit would be refused
// for its sine.)
#[tactic(auto, unfolding(crate::specs::Build::kind_of))]
fn kind_of(which: SiderealTime, orbit_0: Orbit, given: Given, dots: Dots) -> Option<Resonant>
    ensures { result ≡ kind_of which orbit_0 given dots }
{
    match class_of(orbit_0.mean_motion, orbit_0.eccentricity) {
        Class::NonResonant => Some(Resonant::No { a0: given.a0 }),
        Class::OneDay => {
            let sine = sin(orbit_0.inclination)?;
            let theta = epoch_to_sidereal_time(which, given.epoch);
            Some(one_day_resonant(orbit_0, given, dots, theta, sine))
        }
        Class::HalfDay => {
            let sine = sin(orbit_0.inclination)?;
            let theta = epoch_to_sidereal_time(which, given.epoch);
            Some(half_day_resonant(orbit_0, given, dots, theta, sine))
        }
    }
}

// Ω̇ = p₁₄ + (Ω̇ₛ + Ω̇ₗ), ω̇ = k₁₄ + (ω̇ₛ + ω̇ₗ), Ṁ = p₁₅ + (Ṁₛ + Ṁₗ); the rest as given or summed.
#[tactic(auto, unfolding(crate::specs::Build::constants_of))]
fn constants(
    geopotential: Geopotential,
    orbit_0: Orbit,
    given: Given,
    dots: Dots,
    afspc_compatibility_mode: bool,
    resonant: Resonant,
) -> Constants
    ensures { result ≡ constants_of geopotential orbit_0 given dots afspc_compatibility_mode resonant }
{
    Constants {
        geopotential,
        orbit_0,
        right_ascension_dot: given.p14 + dots.right_ascension,
        argument_of_perigee_dot: given.k14 + dots.argument_of_perigee,
        mean_anomaly_dot: given.p15 + dots.mean_anomaly,
        c1: given.c1,
        c4: given.c4,
        k0: given.k0,
        k1: given.k1,
        eccentricity_dot: dots.eccentricity,
        inclination_dot: dots.inclination,
        afspc_compatibility_mode,
        resonant,
    }
}

// The constants of an orbit; the rates of the Sun and of the Moon come from third_body.
#[tactic(auto, unfolding(crate::specs::Build::built_of, crate::specs::Build::checked))]
pub fn build(
    geopotential: Geopotential,
    which: SiderealTime,
    orbit_0: Orbit,
    given: Given,
    solar: Dots,
    lunar: Dots,
    afspc_compatibility_mode: bool,
) -> Result<Constants, BuildError>
    ensures { result ≡ built_of geopotential which orbit_0 given solar lunar afspc_compatibility_mode }
{
    if !is_finite(geopotential, orbit_0, given, solar, lunar) {
        return Err(BuildError::NumberNotFinite);
    }
    let dots = sum(solar, lunar);
    let resonant = kind_of(which, orbit_0, given, dots).ok_or(BuildError::AngleOutside)?;
    let built = constants(
        geopotential,
        orbit_0,
        given,
        dots,
        afspc_compatibility_mode,
        resonant,
    );
    if !built.is_finite() {
        return Err(BuildError::NotFinite);
    }
    Ok(built)
}

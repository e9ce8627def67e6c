// Solar and lunar geometry: what `constants` of deep_space.rs passes to third_body for the Sun and
// for the Moon, beside the numbers that are constants of the Rust.
ghost use Rattle.std.specs.Prelude.{◌≡◌};
ghost use Rattle.constants.specs.Geometry.{days, solar_mean_anomaly, lunar_mean_anomaly, lunar_epsilon, inclination_cosine as inclination_cosine_of, complement as complement_of, node_sine, plane_of, tilt_of, perigee, sun, moon, finite_body, geometry_of};

use crate::error::BuildError;
use floats::atan::atan2;
use floats::finite::is_finite;
use floats::power::square;
use floats::remainder::rem;
use floats::root::sqrt;
use floats::trig::{SinCos, sin_cos};
use std::f64::consts::TAU;

// A third body: sine and cosine of its inclination, of Ω₀ less its node, and of its argument of
// perigee; its mean anomaly in rad.
#[derive(Clone, Copy, Debug, PartialEq)]
pub struct ThirdBody {
    pub inclination_sine: f64,
    pub inclination_cosine: f64,
    pub delta_right_ascension_sine: f64,
    pub delta_right_ascension_cosine: f64,
    pub argument_of_perigee_sine: f64,
    pub argument_of_perigee_cosine: f64,
    pub mean_anomaly_0: f64,
}

// The fourteen numbers.
#[derive(Clone, Copy, Debug, PartialEq)]
pub struct Bodies {
    pub solar: ThirdBody,
    pub lunar: ThirdBody,
}

// How the Moon's orbit lies: sine and cosine of its inclination Iₗ and of its node Ωₗ.
#[derive(Clone, Copy, Debug, PartialEq)]
struct Plane {
    inclination_sine: f64,
    inclination_cosine: f64,
    right_ascension_sine: f64,
    right_ascension_cosine: f64,
}

// d₁₉₀₀ = 365.25 (y₂₀₀₀ + 100)
fn d1900(epoch: f64) -> f64
    ensures { result ≡ days epoch }
{
    (epoch + 100.0) * 365.25
}

// Three angles of one form, each under its own formula: one function of the two numbers would part them and
// save no line.
// Mₛ₀ = (6.2565837 + 0.017201977 d₁₉₀₀) rem 2π
fn solar_mean_anomaly_0(d1900: f64) -> f64
    ensures { result ≡ solar_mean_anomaly d1900 }
{
    rem(6.2565837 + 0.017201977 * d1900, TAU)
}

// Mₗ₀ = (-1.1151842 + 0.228027132 d₁₉₀₀) rem 2π
fn lunar_mean_anomaly_0(d1900: f64) -> f64
    ensures { result ≡ lunar_mean_anomaly d1900 }
{
    rem(-1.1151842 + 0.228027132 * d1900, TAU)
}

// Ωₗₑ = (4.5236020 - 9.2422029 × 10⁻⁴ d₁₉₀₀) rem 2π
fn lunar_right_ascension_epsilon(d1900: f64) -> f64
    ensures { result ≡ lunar_epsilon d1900 }
{
    rem(4.5236020 - 9.2422029e-4 * d1900, TAU)
}

// cos Iₗ = 0.91375164 - 0.03568096 cos Ωₗₑ (the Rust's comment has Ωₗₑ without its cosine)
fn lunar_inclination_cosine(epsilon_cosine: f64) -> f64
    ensures { result ≡ inclination_cosine_of epsilon_cosine }
{
    0.91375164 - 0.03568096 * epsilon_cosine
}

// (1 - x²)¹ᐟ²: the sine that goes with a cosine, and the cosine with a sine
fn complement(x: f64) -> Option<f64>
    ensures { result ≡ complement_of x }
{
    sqrt(1.0 - square(x))
}

// sin Ωₗ = 0.089683511 sin Ωₗₑ / sin Iₗ
fn lunar_right_ascension_sine(epsilon_sine: f64, inclination_sine: f64) -> f64
    ensures { result ≡ node_sine epsilon_sine inclination_sine }
{
    0.089683511 * epsilon_sine / inclination_sine
}

// How the Moon's orbit lies where the sine of its inclination is known; none where a root is refused.
#[tactic(auto, unfolding(crate::specs::Geometry::plane_of))]
fn plane_at(epsilon: SinCos, inclination_cosine: f64, inclination_sine: f64) -> Option<Plane>
    ensures { result ≡ plane_of epsilon inclination_cosine inclination_sine }
{
    let right_ascension_sine = lunar_right_ascension_sine(epsilon.sin, inclination_sine);
    let right_ascension_cosine = complement(right_ascension_sine)?;
    Some(Plane {
        inclination_sine,
        inclination_cosine,
        right_ascension_sine,
        right_ascension_cosine,
    })
}

// How the Moon's orbit lies, from the sine and cosine of Ωₗₑ.
#[tactic(auto, unfolding(crate::specs::Geometry::tilt_of))]
fn tilt_of(epsilon: SinCos) -> Option<Plane>
    ensures { result ≡ tilt_of epsilon }
{
    let inclination_cosine = lunar_inclination_cosine(epsilon.cos);
    let inclination_sine = complement(inclination_cosine)?;
    plane_at(epsilon, inclination_cosine, inclination_sine)
}

// ωₗ = 5.8351514 + 0.001944368 d₁₉₀₀
//                     0.39785416 sin Ωₗₑ / sin Iₗ
//      + tan⁻¹ ------------------------------------------ - Ωₗₑ
//              cos Ωₗ cos Ωₗₑ + 0.91744867 sin Ωₗ sin Ωₗₑ
fn lunar_argument_of_perigee(d1900: f64, epsilon: f64, wave: SinCos, plane: Plane) -> f64
    ensures { result ≡ perigee d1900 epsilon wave plane }
{
    5.8351514
        + 0.001944368 * d1900
        + atan2(
            0.39785416 * wave.sin / plane.inclination_sine,
            plane.right_ascension_cosine * wave.cos
                + 0.91744867 * plane.right_ascension_sine * wave.sin,
        )
        - epsilon
}

// The Sun: Ωₛ is 0, and its inclination and argument of perigee are numbers of the Rust.
fn solar(d1900: f64, node: SinCos) -> ThirdBody
    ensures { result ≡ sun d1900 node }
{
    ThirdBody {
        inclination_sine: 0.39785416,
        inclination_cosine: 0.91744867,
        delta_right_ascension_sine: node.sin,
        delta_right_ascension_cosine: node.cos,
        argument_of_perigee_sine: -0.98088458,
        argument_of_perigee_cosine: 0.1945905,
        mean_anomaly_0: solar_mean_anomaly_0(d1900),
    }
}

// The Moon: sin(Ω₀ - Ωₗ) = sin Ω₀ cos Ωₗ - cos Ω₀ sin Ωₗ, cos(Ω₀ - Ωₗ) = cos Ωₗ cos Ω₀ + sin Ωₗ sin Ω₀
#[tactic(auto, unfolding(crate::specs::Geometry::moon))]
fn lunar(d1900: f64, node: SinCos, plane: Plane, perigee: SinCos) -> ThirdBody
    ensures { result ≡ moon d1900 node plane perigee }
{
    ThirdBody {
        inclination_sine: plane.inclination_sine,
        inclination_cosine: plane.inclination_cosine,
        delta_right_ascension_sine: node.sin * plane.right_ascension_cosine
            - node.cos * plane.right_ascension_sine,
        delta_right_ascension_cosine: plane.right_ascension_cosine * node.cos
            + plane.right_ascension_sine * node.sin,
        argument_of_perigee_sine: perigee.sin,
        argument_of_perigee_cosine: perigee.cos,
        mean_anomaly_0: lunar_mean_anomaly_0(d1900),
    }
}

// (A chain of `&`, for the reason that `Geopotential::is_finite` gives.)
impl ThirdBody {
    // Whether every number is finite.
    pub fn is_finite(self) -> bool
        ensures { result ≡ finite_body self }
    {
        is_finite(self.inclination_sine)
            & is_finite(self.inclination_cosine)
            & is_finite(self.delta_right_ascension_sine)
            & is_finite(self.delta_right_ascension_cosine)
            & is_finite(self.argument_of_perigee_sine)
            & is_finite(self.argument_of_perigee_cosine)
            & is_finite(self.mean_anomaly_0)
    }
}

// The geometry of an orbit whose node Ω₀ is in rad; the epoch in years since UTC 1 January 2000 12h00.
pub fn geometry_of(right_ascension: f64, epoch: f64) -> Result<Bodies, BuildError>
    ensures { result ≡ geometry_of right_ascension epoch }
{
    if !(is_finite(right_ascension) & is_finite(epoch)) {
        return Err(BuildError::NumberNotFinite);
    }
    let d1900 = d1900(epoch);
    let epsilon = lunar_right_ascension_epsilon(d1900);
    let node = sin_cos(right_ascension).ok_or(BuildError::AngleOutside)?;
    let wave = sin_cos(epsilon).ok_or(BuildError::AngleOutside)?;
    let plane = tilt_of(wave).ok_or(BuildError::NotFinite)?;
    let argument_of_perigee = lunar_argument_of_perigee(d1900, epsilon, wave, plane);
    let perigee = sin_cos(argument_of_perigee).ok_or(BuildError::AngleOutside)?;
    let solar = solar(d1900, node);
    let lunar = lunar(d1900, node, plane, perigee);
    if !(solar.is_finite() & lunar.is_finite()) {
        return Err(BuildError::NotFinite);
    }
    Ok(Bodies { solar, lunar })
}

// The resonant longitude λ₀ at the epoch and its rate λ̇₀, for the two resonances. The rates of the
// Sun and of the Moon come in together, as the Rust adds each pair first.
// Orbit, numbers given and rates come one by one, for the reason that build.rt gives.
ghost use Rattle.std.specs.Prelude.{◌≡◌};
ghost use Rattle.constants.specs.Longitude.{one_day_lambda_0, one_day_lambda_dot_0, half_day_lambda_0, half_day_lambda_dot_0};

use crate::given::{Dots, Given};
use floats::remainder::rem;
use orbit::propagator::Orbit;
use std::f64::consts::TAU;

// θ̇ = 4.37526908801129966 × 10⁻³ rad.min⁻¹
const SIDEREAL_SPEED: f64 = 4.37526908801129966e-3;

// λ₀ = M₀ + Ω₀ + ω₀ − θ₀ rem 2π
pub fn one_day_lambda_0(orbit_0: Orbit, sidereal_time_0: f64) -> f64
    ensures { result ≡ one_day_lambda_0 orbit_0 sidereal_time_0 }
{
    let longitude = orbit_0.mean_anomaly + orbit_0.right_ascension + orbit_0.argument_of_perigee
        - sidereal_time_0;
    rem(longitude, TAU)
}

// λ̇₀ = p₁₅ + (k₁₄ + p₁₄) − θ̇ + (Ṁₛ + Ṁₗ) + (ω̇ₛ + ω̇ₗ) + (Ω̇ₛ + Ω̇ₗ) - n₀
pub fn one_day_lambda_dot_0(orbit_0: Orbit, given: Given, dots: Dots) -> f64
    ensures { result ≡ one_day_lambda_dot_0 orbit_0 given dots }
{
    given.p15 + (given.k14 + given.p14) - SIDEREAL_SPEED
        + dots.mean_anomaly
        + dots.argument_of_perigee
        + dots.right_ascension
        - orbit_0.mean_motion
}

// λ₀ = M₀ + 2 Ω₀ − 2 θ₀ rem 2π, each of Ω₀ and θ₀ twice
pub fn half_day_lambda_0(orbit_0: Orbit, sidereal_time_0: f64) -> f64
    ensures { result ≡ half_day_lambda_0 orbit_0 sidereal_time_0 }
{
    let longitude = orbit_0.mean_anomaly + orbit_0.right_ascension + orbit_0.right_ascension
        - sidereal_time_0
        - sidereal_time_0;
    rem(longitude, TAU)
}

// λ̇₀ = p₁₅ + (Ṁₛ + Ṁₗ) + 2 (p₁₄ + (Ω̇ₛ + Ω̇ₗ) - θ̇) - n₀
pub fn half_day_lambda_dot_0(orbit_0: Orbit, given: Given, dots: Dots) -> f64
    ensures { result ≡ half_day_lambda_dot_0 orbit_0 given dots }
{
    given.p15 + dots.mean_anomaly + 2.0 * (given.p14 + dots.right_ascension - SIDEREAL_SPEED)
        - orbit_0.mean_motion
}

// The three coefficients of the one-day resonance.
// Their numbers come one by one, for the reason that half_day.rt gives.
ghost use Rattle.std.specs.Prelude.{◌≡◌};
ghost use Rattle.coefficients.specs.OneDay.{p17 as p17_of, dr1 as dr1_of, dr2 as dr2_of, dr3 as dr3_of, coefficients as coefficients_of};

use floats::power::{cube, square};
use orbit::propagator::{Orbit, Resonance};

// p₁₇ = 3 (n₀ / a₀)²
fn p17(n: f64, a0: f64) -> f64
    ensures { result ≡ p17_of n a0 }
{
    3.0 * square(n / a0)
}

// 𝛿ᵣ₁ = p₁₇ (¹⁵/₁₆ sin²I₀ (1 + 3 p₁) - ³/₄ (1 + p₁))
//       (1 + 2 e₀²) 2.1460748 × 10⁻⁶ / a₀ (the Rust's comment has a₀²)
fn dr1(p17: f64, sine: f64, p1: f64, e: f64, a0: f64) -> f64
    ensures { result ≡ dr1_of p17 sine p1 e a0 }
{
    p17 * (0.9375 * square(sine) * (1.0 + 3.0 * p1) - 0.75 * (1.0 + p1))
        * (1.0 + 2.0 * square(e))
        * 2.1460748e-6
        / a0
}

// 𝛿ᵣ₂ = 2 p₁₇ (³/₄ (1 + p₁)²) (1 + e₀² (- ⁵/₂ + ¹³/₁₆ e₀²)) 1.7891679 × 10⁻⁶
fn dr2(p17: f64, p1: f64, e: f64) -> f64
    ensures { result ≡ dr2_of p17 p1 e }
{
    2.0 * p17
        * (0.75 * square(1.0 + p1))
        * (1.0 + square(e) * (-2.5 + 0.8125 * square(e)))
        * 1.7891679e-6
}

// 𝛿ᵣ₃ = 3 p₁₇ (¹⁵/₈ (1 + p₁)³) (1 + e₀² (- 6 + 6.60937 e₀²))
//       2.2123015 × 10⁻⁷ / a₀ (the Rust's comment has a₀²)
fn dr3(p17: f64, p1: f64, e: f64, a0: f64) -> f64
    ensures { result ≡ dr3_of p17 p1 e a0 }
{
    3.0 * p17
        * (1.875 * cube(1.0 + p1))
        * (1.0 + square(e) * (-6.0 + 6.60937 * square(e)))
        * 2.2123015e-7
        / a0
}

// The three coefficients, from the sine of the inclination I₀.
pub fn coefficients(orbit_0: Orbit, p1: f64, a0: f64, sine: f64) -> Resonance
    ensures { result ≡ coefficients_of orbit_0 p1 a0 sine }
{
    let e = orbit_0.eccentricity;
    let p = p17(orbit_0.mean_motion, a0);
    Resonance::OneDay {
        dr1: dr1(p, sine, p1, e, a0),
        dr2: dr2(p, p1, e),
        dr3: dr3(p, p1, e, a0),
    }
}

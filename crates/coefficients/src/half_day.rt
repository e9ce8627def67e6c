// The eleven coefficients of the half-day resonance. Sine, p₁ and e₀ come to most of them, and stay numbers: a struct
// of the three makes no call shorter, and each formula longer.
ghost use Rattle.std.specs.Prelude.{◌≡◌};
ghost use Rattle.coefficients.specs.HalfDay.{p18 as p18_of, f220 as f220_of, d2201 as d2201_of, d2211 as d2211_of, d3210 as d3210_of, d3222 as d3222_of, d4410 as d4410_of, d4422 as d4422_of, d5220 as d5220_of, d5232 as d5232_of, d5421 as d5421_of, d5433 as d5433_of, coefficients as coefficients_of};

use crate::eccentricity::{g211, g310, g322, g410, g422, g520, g521, g532, g533};
use floats::power::{fourth, square};
use orbit::propagator::{Orbit, Resonance};

// p₁₈ = 3 n₀² / a₀², where i = 1 / a₀
fn p18(n: f64, i: f64) -> f64
    ensures { result ≡ p18_of n i }
{
    3.0 * square(n) * square(i)
}

// F₂₂₀ = ³/₄ (1 + 2 p₁ + p₁²)
fn f220(p1: f64) -> f64
    ensures { result ≡ f220_of p1 }
{
    0.75 * (1.0 + 2.0 * p1 + square(p1))
}

// D₂₂₀₋₁ = p₁₈ 1.7891679 × 10⁻⁶ F₂₂₀ (- 0.306 - 0.44 (e₀ - 0.64))
fn d2201(p18: f64, p1: f64, e: f64) -> f64
    ensures { result ≡ d2201_of p18 p1 e }
{
    p18 * 1.7891679e-6 * f220(p1) * (-0.306 - (e - 0.64) * 0.44)
}

// D₂₂₁₁ = p₁₈ 1.7891679 × 10⁻⁶ (³/₂ sin²I₀) G₂₁₁
fn d2211(p18: f64, sine: f64, e: f64) -> f64
    ensures { result ≡ d2211_of p18 sine e }
{
    p18 * 1.7891679e-6 * (1.5 * square(sine)) * g211(e)
}

// D₃₂₁₀ = p₁₉ 3.7393792 × 10⁻⁷ (¹⁵/₈ sin I₀ (1 - 2 p₁ - 3 p₁²)) G₃₁₀
fn d3210(p19: f64, sine: f64, p1: f64, e: f64) -> f64
    ensures { result ≡ d3210_of p19 sine p1 e }
{
    p19 * 3.7393792e-7 * (1.875 * sine * (1.0 - 2.0 * p1 - 3.0 * square(p1))) * g310(e)
}

// D₃₂₂₂ = p₁₉ 3.7393792 × 10⁻⁷ (- ¹⁵/₈ sin I₀ (1 + 2 p₁ - 3 p₁²)) G₃₂₂
fn d3222(p19: f64, sine: f64, p1: f64, e: f64) -> f64
    ensures { result ≡ d3222_of p19 sine p1 e }
{
    p19 * 3.7393792e-7 * (-1.875 * sine * (1.0 + 2.0 * p1 - 3.0 * square(p1))) * g322(e)
}

// D₄₄₁₀ = 2 p₂₀ 7.3636953 × 10⁻⁹ (35 sin²I₀ F₂₂₀) G₄₁₀
fn d4410(p20: f64, sine: f64, p1: f64, e: f64) -> f64
    ensures { result ≡ d4410_of p20 sine p1 e }
{
    2.0 * p20 * 7.3636953e-9 * (35.0 * square(sine) * f220(p1)) * g410(e)
}

// D₄₄₂₂ = 2 p₂₀ 7.3636953 × 10⁻⁹ (³¹⁵/₈ sin⁴I₀) G₄₂₂
fn d4422(p20: f64, sine: f64, e: f64) -> f64
    ensures { result ≡ d4422_of p20 sine e }
{
    2.0 * p20 * 7.3636953e-9 * (39.375 * fourth(sine)) * g422(e)
}

// D₅₂₂₀ = p₂₁ 1.1428639 × 10⁻⁷ (³¹⁵/₃₂ sin I₀
//         (sin²I₀ (1 - 2 p₁ - 5 p₁²) + 0.33333333 (- 2 + 4 p₁ + 6 p₁²))) G₅₂₀
fn d5220(p21: f64, sine: f64, p1: f64, e: f64) -> f64
    ensures { result ≡ d5220_of p21 sine p1 e }
{
    p21 * 1.1428639e-7
        * (9.84375
            * sine
            * (square(sine) * (1.0 - 2.0 * p1 - 5.0 * square(p1))
                + 0.33333333 * (-2.0 + 4.0 * p1 + 6.0 * square(p1))))
        * g520(e)
}

// D₅₂₃₂ = p₂₁ 1.1428639 × 10⁻⁷ (sin I₀ (4.92187512 sin²I₀ (- 2 - 4 p₁ + 10 p₁²)
//         + 6.56250012 (1 + 2 p₁ - 3 p₁²))) G₅₃₂ (the Rust's comment has 1 + p₁)
fn d5232(p21: f64, sine: f64, p1: f64, e: f64) -> f64
    ensures { result ≡ d5232_of p21 sine p1 e }
{
    p21 * 1.1428639e-7
        * (sine
            * (4.92187512 * square(sine) * (-2.0 - 4.0 * p1 + 10.0 * square(p1))
                + 6.56250012 * (1.0 + 2.0 * p1 - 3.0 * square(p1))))
        * g532(e)
}

// D₅₄₂₁ = 2 p₂₁ 2.1765803 × 10⁻⁹ (⁹⁴⁵/₃₂ sin I₀
//         (2 - 8 p₁ + p₁² (- 12 + 8 p₁ + 10 p₁²))) G₅₂₁
fn d5421(p21: f64, sine: f64, p1: f64, e: f64) -> f64
    ensures { result ≡ d5421_of p21 sine p1 e }
{
    2.0 * p21
        * 2.1765803e-9
        * (29.53125 * sine * (2.0 - 8.0 * p1 + square(p1) * (-12.0 + 8.0 * p1 + 10.0 * square(p1))))
        * g521(e)
}

// D₅₄₃₃ = 2 p₂₁ 2.1765803 × 10⁻⁹ (⁹⁴⁵/₃₂ sin I₀
//         (- 2 - 8 p₁ + p₁² (12 + 8 p₁ - 10 p₁²))) G₅₃₃
fn d5433(p21: f64, sine: f64, p1: f64, e: f64) -> f64
    ensures { result ≡ d5433_of p21 sine p1 e }
{
    2.0 * p21
        * 2.1765803e-9
        * (29.53125 * sine * (-2.0 - 8.0 * p1 + square(p1) * (12.0 + 8.0 * p1 - 10.0 * square(p1))))
        * g533(e)
}

// The eleven coefficients, from the sine of the inclination I₀: p₁₉ = p₁₈ / a₀, p₂₀ = p₁₉ / a₀ and
// p₂₁ = p₂₀ / a₀, each by the product with 1 / a₀.
pub fn coefficients(orbit_0: Orbit, p1: f64, a0: f64, k14: f64, sine: f64) -> Resonance
    ensures { result ≡ coefficients_of orbit_0 p1 a0 k14 sine }
{
    let e = orbit_0.eccentricity;
    let i = 1.0 / a0;
    let p = p18(orbit_0.mean_motion, i);
    let p19 = p * i;
    let p20 = p19 * i;
    let p21 = p20 * i;
    Resonance::HalfDay {
        d2201: d2201(p, p1, e),
        d2211: d2211(p, sine, e),
        d3210: d3210(p19, sine, p1, e),
        d3222: d3222(p19, sine, p1, e),
        d4410: d4410(p20, sine, p1, e),
        d4422: d4422(p20, sine, e),
        d5220: d5220(p21, sine, p1, e),
        d5232: d5232(p21, sine, p1, e),
        d5421: d5421(p21, sine, p1, e),
        d5433: d5433(p21, sine, p1, e),
        k14,
    }
}

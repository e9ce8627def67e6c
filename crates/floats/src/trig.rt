// Sine and cosine of an angle in radians, by a reduction to an eighth of a turn either way and two
// polynomials. `None` is refusal 9: the angle is beyond the limit, or a NaN. No clause of the library
// says what its own give, by the C library.
ghost use Rattle.std.specs.Prelude.{◌≡◌};
ghost use Rattle.floats.specs.Trig.{sine_sum, cosine_sum, sine_kernel, cosine_kernel, nearby as nearby_of, quarters as quarters_of, reduced as reduced_of, swing as swing_of, turned as turned_of, wave_of, sin_cos_of, sine_of, cosine_of};

use crate::finite::magnitude;
use std::f64::consts::{FRAC_2_PI, FRAC_PI_4};

// The largest magnitude of an angle that is answered.
const ANGLE_LIMIT: f64 = 1048576.0;

// Sine and cosine of one angle, and whether the angle is answered. Not an Option, since ten angles with
// one refusal, the rates of a half-day orbit, take 12 to 19 % longer by `sin_cos` and `?` (measured).
#[derive(Clone, Copy, Debug, PartialEq)]
pub struct Wave {
    pub sin: f64,
    pub cos: f64,
    pub ok: bool,
}

// Sine and cosine of an angle that is answered.
#[derive(Clone, Copy, Debug, PartialEq)]
pub struct SinCos {
    pub sin: f64,
    pub cos: f64,
}

// 1/3! - z/5! + z²/7! - .. + z⁶/15!
fn sine_sum(z: f64) -> f64
    ensures { result ≡ sine_sum z }
{
    let w = z * z;
    ((0.16666666666666666 - z * 0.008333333333333333)
        + w * (0.0001984126984126984 - z * 2.7557319223985893e-6))
        + (w * w)
            * ((2.505210838544172e-8 - z * 1.6059043836821613e-10) + w * 7.647163731819816e-13)
}

// 1/2! - z/4! + z²/6! - .. - z⁷/16!
fn cosine_sum(z: f64) -> f64
    ensures { result ≡ cosine_sum z }
{
    let w = z * z;
    ((0.5 - z * 0.041666666666666664) + w * (0.001388888888888889 - z * 2.48015873015873e-5))
        + (w * w)
            * ((2.755731922398589e-7 - z * 2.08767569878681e-9)
                + w * (1.1470745597729725e-11 - z * 4.779477332387385e-14))
}

// sin x for |x| <= π/4
fn sine_kernel(x: f64) -> f64
    ensures { result ≡ sine_kernel x }
{
    let z = x * x;
    x * (1.0 - z * sine_sum(z))
}

// cos x for |x| <= π/4
fn cosine_kernel(x: f64) -> f64
    ensures { result ≡ cosine_kernel x }
{
    let z = x * x;
    1.0 - z * cosine_sum(z)
}

// The whole number nearest to y, a tie to the even one, for |y| <= 2^51.
fn nearby(y: f64) -> f64
    ensures { result ≡ nearby_of y }
{
    (y + 6755399441055744.0) - 6755399441055744.0
}

// How many quarter turns x is, to the nearest.
fn quarters(x: f64) -> f64
    ensures { result ≡ quarters_of x }
{
    nearby(x * FRAC_2_PI)
}

// x less k quarter turns.
fn reduced(x: f64, k: f64) -> f64
    ensures { result ≡ reduced_of x k }
{
    (x - k * 1.570796325802803) - k * 9.920935796805404e-10
}

// The sine of k quarter turns.
fn swing(k: f64) -> f64
    ensures { result ≡ swing_of k }
{
    let h = nearby(k * 0.5);
    k - (h + h)
}

// Sine and cosine of r and k quarter turns together.
fn turned(r: f64, k: f64, ok: bool) -> Wave
    ensures { result ≡ turned_of r k ok }
{
    let s = sine_kernel(r);
    let c = cosine_kernel(r);
    let b = swing(k);
    let a = swing(k + 1.0);
    Wave {
        sin: a * s + b * c,
        cos: a * c - b * s,
        ok,
    }
}

// Sine and cosine of x, and whether x is answered: for callers with many angles and one refusal.
pub fn sines(x: f64) -> Wave
    ensures { result ≡ wave_of x }
{
    let m = magnitude(x);
    if m <= FRAC_PI_4 {
        return Wave {
            sin: sine_kernel(x),
            cos: cosine_kernel(x),
            ok: true,
        };
    }
    let k = quarters(x);
    turned(reduced(x, k), k, m <= ANGLE_LIMIT)
}

// Sine and cosine of x, by one reduction.
pub fn sin_cos(x: f64) -> Option<SinCos>
    ensures { result ≡ sin_cos_of x }
{
    let Wave { sin, cos, ok } = sines(x);
    ok.then_some(SinCos { sin, cos })
}

pub fn sin(x: f64) -> Option<f64>
    ensures { result ≡ sine_of x }
{
    let w = sines(x);
    w.ok.then_some(w.sin)
}

pub fn cos(x: f64) -> Option<f64>
    ensures { result ≡ cosine_of x }
{
    let w = sines(x);
    w.ok.then_some(w.cos)
}

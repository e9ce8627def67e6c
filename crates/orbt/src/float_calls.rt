// The float functions, under C's names: an export to each, also where two differ in their callee alone.
ghost use Rattle.std.specs.Prelude.{◌≡◌, unwrap_or};
ghost use Rattle.floats.specs.Root.{sqrt_of, cbrt_of, two_thirds, three_halves, number as root_number};
ghost use Rattle.floats.specs.Trig.{sine_of, cosine_of, number as trig_number};
ghost use Rattle.floats.specs.Floor.{floor_of};
ghost use Rattle.floats.specs.Remainder.{rem_euclid};
ghost use Rattle.floats.specs.Atan.{arc_of};

use crate::answer::put;
use floats::atan::atan2;
use floats::floor::floor;
use floats::remainder::rem_euclid;
use floats::root::{cbrt, sqrt, three_halves, two_thirds};
use floats::trig::{SinCos, cos, sin, sin_cos};

// The square root of x, or 12.
#[unsafe(no_mangle)]
pub extern "C" fn orbt_sqrt(x: f64, root: &mut f64) -> u32
    ensures { (result ≡ root_number (sqrt_of x)) × (root.new ≡ unwrap_or (sqrt_of x) root.old) }
{
    put(sqrt(x).ok_or(12), root)
}

// The greatest float whose cube is not above x, or 12.
#[unsafe(no_mangle)]
pub extern "C" fn orbt_cbrt(x: f64, root: &mut f64) -> u32
    ensures { (result ≡ root_number (cbrt_of x)) × (root.new ≡ unwrap_or (cbrt_of x) root.old) }
{
    put(cbrt(x).ok_or(12), root)
}

// x^(2/3), or 12.
#[unsafe(no_mangle)]
pub extern "C" fn orbt_two_thirds(x: f64, power: &mut f64) -> u32
    ensures { (result ≡ root_number (two_thirds x)) × (power.new ≡ unwrap_or (two_thirds x) power.old) }
{
    put(two_thirds(x).ok_or(12), power)
}

// x^1.5, or 12.
#[unsafe(no_mangle)]
pub extern "C" fn orbt_three_halves(x: f64, power: &mut f64) -> u32
    ensures { (result ≡ root_number (three_halves x)) × (power.new ≡ unwrap_or (three_halves x) power.old) }
{
    put(three_halves(x).ok_or(12), power)
}

// The sine of x in rad, or 9.
#[unsafe(no_mangle)]
pub extern "C" fn orbt_sin(x: f64, sine: &mut f64) -> u32
    ensures { (result ≡ trig_number (sine_of x)) × (sine.new ≡ unwrap_or (sine_of x) sine.old) }
{
    put(sin(x).ok_or(9), sine)
}

// The cosine of x in rad, or 9.
#[unsafe(no_mangle)]
pub extern "C" fn orbt_cos(x: f64, cosine: &mut f64) -> u32
    ensures { (result ≡ trig_number (cosine_of x)) × (cosine.new ≡ unwrap_or (cosine_of x) cosine.old) }
{
    put(cos(x).ok_or(9), cosine)
}

// Sine and cosine of x by one reduction, or 9.
#[unsafe(no_mangle)]
pub extern "C" fn orbt_sin_cos(x: f64, sine: &mut f64, cosine: &mut f64) -> u32
    ensures { (result ≡ trig_number (sine_of x)) × (sine.new ≡ unwrap_or (sine_of x) sine.old)
        × (cosine.new ≡ unwrap_or (cosine_of x) cosine.old) }
{
    let Some(SinCos { sin, cos }) = sin_cos(x) else {
        return 9;
    };
    *sine = sin;
    *cosine = cos;
    0
}

// The greatest whole number that is not above x.
#[unsafe(no_mangle)]
pub extern "C" fn orbt_floor(x: f64) -> f64
    ensures { result ≡ floor_of x }
{
    floor(x)
}

// x % m, and that plus |m| where it is negative.
#[unsafe(no_mangle)]
pub extern "C" fn orbt_rem_euclid(x: f64, m: f64) -> f64
    ensures { result ≡ rem_euclid x m }
{
    rem_euclid(x, m)
}

// The angle of the point (x, y).
#[unsafe(no_mangle)]
pub extern "C" fn orbt_atan2(y: f64, x: f64) -> f64
    ensures { result ≡ arc_of y x }
{
    atan2(y, x)
}

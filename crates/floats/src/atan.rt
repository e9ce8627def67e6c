// The angle of a point, from the slope of its lesser over its greater coordinate. No clause of the
// library says what its own gives, by the C library.
ghost use Rattle.std.specs.Prelude.{◌≡◌};
ghost use Rattle.floats.specs.Atan.{arc_sum, arc_kernel, sign as sign_of, lesser, greater, centre as centre_of, lean as lean_of, rest as rest_of, pointed as pointed_of, along as along_of, arc_of};

use crate::finite::{is_finite, is_negative};
use std::f64::consts::{FRAC_PI_2, FRAC_PI_4, PI};

// The polynomial of `arc_kernel` in z = u².
fn arc_sum(z: f64) -> f64
    ensures { result ≡ arc_sum z }
{
    let w = z * z;
    ((0.3333333333333324 - z * 0.19999999999842993)
        + w * (0.1428571423967277 - z * 0.11111105955136967))
        + (w * w)
            * ((0.09090624586290096 - z * 0.07683735512306385)
                + w * (0.06522051309586488 - z * 0.04578559472830506))
}

// The arc tangent of u, for |u| <= tan 15°.
fn arc_kernel(u: f64) -> f64
    ensures { result ≡ arc_kernel u }
{
    let z = u * u;
    u - u * (z * arc_sum(z))
}

// -1 where `below` holds, and 1 elsewhere. The library's `signum` gives a zero its sign.
fn sign(below: bool) -> f64
    ensures { result ≡ sign_of below }
{
    if below { -1.0 } else { 1.0 }
}

// The lesser of a and b, and the greater, each by one test. The library's `min` and `max` leave open
// which of two zeros they give, where `lesser` and `greater` of specs/ say it.
fn in_order(a: f64, b: f64) -> (f64, f64)
    ensures { (result.0 ≡ lesser a b) × (result.1 ≡ greater a b) }
{
    if a < b { (a, b) } else { (b, a) }
}

// tan 30° where t is above tan 15°, and 0 elsewhere.
fn centre(t: f64) -> f64
    ensures { result ≡ centre_of t }
{
    if t > 0.2679491924311227 {
        0.5773502691896257
    } else {
        0.0
    }
}

// The angle of slope `centre(t)`: 30° or 0.
fn lean(t: f64) -> f64
    ensures { result ≡ lean_of t }
{
    centre(t) * 0.9068996821171089
}

// The arc tangent of t less `lean(t)`.
fn rest(t: f64) -> f64
    ensures { result ≡ rest_of t }
{
    let q = centre(t);
    arc_kernel((t - q) / (1.0 + t * q))
}

// The angle where y is not 0.
fn pointed(y: f64, x: f64) -> f64
    ensures { result ≡ pointed_of y x }
{
    let sy = sign(y < 0.0);
    let sx = sign(x < 0.0);
    let a = y * sy;
    let b = x * sx;
    let (low, high) = in_order(a, b);
    let t = low / high;
    let way = sign(b < a) * sx;
    let base = FRAC_PI_2 - FRAC_PI_4 * (way + sx);
    sy * (base + way * lean(t)) + (sy * way) * rest(t)
}

// The angle where y is 0.
fn along(y: f64, x: f64) -> f64
    ensures { result ≡ along_of y x }
{
    if is_negative(x) {
        if is_negative(y) {
            return -PI;
        }
        return PI;
    }
    y
}

// The angle of the point (x, y), from -π to π. A number that is not finite gives a NaN.
pub fn atan2(y: f64, x: f64) -> f64
    ensures { result ≡ arc_of y x }
{
    if !(is_finite(y) & is_finite(x)) {
        return f64::NAN;
    }
    if y == 0.0 { along(y, x) } else { pointed(y, x) }
}

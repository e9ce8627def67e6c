// What a float is: finite, its sign bit, its magnitude, and its 64 bits there and back.
ghost use Rattle.std.specs.Prelude.{◌≡◌};
ghost use Rattle.std.specs.Float.{binary64};
ghost use Rattle.std.specs.Float.Ieee.{of_bits, to_bits};
ghost use Rattle.std.specs.Float.Ieee.Scale.{finite};
ghost use Rattle.floats.specs.Rounded.{magnitude as magnitude_of};
ghost use Rattle.floats.specs.Value.{negative};

use std::num::{f64_from_bits_with_nan, f64_to_bits_with_nan};

// Whether x is neither a NaN nor an infinity: the library's own, with the clause that the crates above
// cite.
#[tactic(auto, using(crate::proofs::Values::finite_is))]
pub fn is_finite(x: f64) -> bool
    ensures { result ≡ finite x }
{
    x.is_finite()
}

// Whether x has the sign bit: x is below 0, or is -0.0.
#[tactic(auto, using(crate::proofs::Values::negative_is, crate::proofs::Values::nan_plain))]
pub fn is_negative(x: f64) -> bool
    ensures { result ≡ negative x }
{
    !x.is_nan() && x.is_sign_negative()
}

// x without its sign, but that -0.0 keeps it, as `magnitude` of specs/ says: std's `abs` would take it off.
pub fn magnitude(x: f64) -> f64
    ensures { result ≡ magnitude_of x }
{
    if x < 0.0 { -x } else { x }
}

// The 64 bits of x. Every NaN gives 7FF8000000000000.
pub fn bits_of(x: f64) -> u64
    ensures { result ≡ to_bits binary64 x }
{
    f64_to_bits_with_nan(x)
}

// The float with these 64 bits.
pub fn of_bits(n: u64) -> f64
    ensures { result ≡ of_bits binary64 n }
{
    f64_from_bits_with_nan(n)
}

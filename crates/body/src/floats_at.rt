// Floats as eight bytes each, by their bits.
ghost use Rattle.std.specs.Prelude.{◌≡◌, ◌+◌, ◌*◌, ◌≤◌, length};
ghost use Rattle.contents.specs.Laid.{laid};
ghost use Rattle.body.specs.Floats.{float_at, floats, float_bytes};

use contents::little_endian::{put_u64, u64_at};
use floats::finite::{bits_of, of_bits};
use std::array;

// The float at `at`, or +0.0 where its bytes are not all there.
#[tactic(auto, unfolding(crate::specs::Floats::float_at))]
pub fn f64_at(s: &[u8], at: usize) -> f64
    ensures { result ≡ float_at at s.now }
{
    of_bits(u64_at(s, at))
}

// The 34 floats from `at` on.
pub(crate) fn floats_34(s: &[u8], at: usize) -> [f64; 34]
    requires { at ≤ 8 }
    ensures { result ≡ floats 34 at s.now }
{
    array::from_fn(|i| f64_at(s, at + 8 * i))
}

// Writes floats at `at`.
pub(crate) fn put_floats(out: &mut [u8], at: usize, xs: &[f64])
    requires { at + 8 * length xs.now ≤ length out.old }
    ensures { out.new ≡ laid at (float_bytes xs.now) out.old }
{
    for (i, x) in xs.iter().enumerate() {
        put_u64(out, at + 8 * i, bits_of(*x));
    }
}

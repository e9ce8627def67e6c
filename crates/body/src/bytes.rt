// The bytes of a body.
ghost use Rattle.std.specs.Prelude.{◌≡◌, ◌++◌, ◌+◌, ◌≤◌, ◌-◌, length, replicate};
ghost use Rattle.contents.specs.Laid.{laid};
ghost use Rattle.record.specs.Record.{kind_of};
ghost use Rattle.body.specs.Floats.{float_bytes};
ghost use Rattle.body.specs.Body.{longest, number_count, state_numbers, body_of};

use crate::floats_at::put_floats;
use orbit::propagator::Constants;
use record::{kind_of, numbers_of};
use resonance::state::ResonanceState;

// Where the numbers of a body begin.
pub(crate) const NUMBERS: usize = 8;

// How many numbers the constants of a kind have. A kind is the number that stands in the file.
pub(crate) fn number_count(kind: u32) -> usize
    ensures { result ≡ number_count kind }
{
    match kind {
        0 => 21,
        1 => 26,
        _ => 34,
    }
}

// How many numbers a state has, if there is one.
fn state_count(s: Option<ResonanceState>) -> usize
    ensures { result ≡ length (state_numbers s) }
{
    match s {
        None => 0,
        Some(_) => 3,
    }
}

// Writes the numbers of a state at `at`, if there is one.
fn put_state(out: &mut [u8], at: usize, s: Option<ResonanceState>)
    requires { at + 24 ≤ length out.old }
    ensures { out.new ≡ laid at (float_bytes (state_numbers s)) out.old }
{
    if let Some(z) = s {
        let x = [z.t, z.mean_motion, z.lambda];
        put_floats(out, at, &x);
    }
}

// The length of the body of constants with none or a state.
pub fn body_size(c: Constants, s: Option<ResonanceState>) -> usize
    ensures { result ≡ length (body_of c s) }
{
    NUMBERS + 8 * (number_count(kind_of(c)) + state_count(s))
}

// That body, and zeros past it: an array of the longest, with `body_size` beside it, since the libraries have no heap.
pub fn body_of(c: Constants, s: Option<ResonanceState>) -> [u8; 304]
    ensures { result ≡ body_of c s ++ replicate (longest - length (body_of c s)) 0 }
{
    let kind = kind_of(c);
    let n = number_count(kind);
    let x = numbers_of(c);
    let mut b = [0u8; 304];
    b[0] = kind as u8;
    b[1] = u8::from(c.afspc_compatibility_mode);
    put_floats(&mut b, NUMBERS, &x[..n]);
    put_state(&mut b, NUMBERS + 8 * n, s);
    b
}

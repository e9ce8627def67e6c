// A body that is read: bytes from disk are strangers until they pass.
ghost use Rattle.std.specs.Prelude.{◌≡◌, ◌≤◌};
ghost use Rattle.body.specs.Body.{size_of, state_start};
ghost use Rattle.body.specs.Read.{shaped, state_at, held_at, body_read};

use crate::bytes::{NUMBERS, number_count};
use crate::examine::{BodyError, Record, examine};
use crate::floats_at::{f64_at, floats_34};
use record::constants_of;
use resonance::state::ResonanceState;

// A kind is the number that stands in the file, here too.
// Where the state of a body begins, or its end where it has none.
pub fn state_start(kind: u32) -> usize
    ensures { result ≡ state_start kind }
{
    NUMBERS + 8 * number_count(kind)
}

// The length of a body of a kind.
fn size_of(kind: u32) -> usize
    ensures { result ≡ size_of kind }
{
    if kind == 0 {
        return state_start(kind);
    }
    state_start(kind) + 24
}

// Whether length, kind, flag and zero bytes are right.
pub fn is_shaped(body: &[u8]) -> bool
    ensures { result ≡ shaped body.now }
{
    if body.len() < 8 {
        return false;
    }
    let size = size_of(body[0] as u32);
    (body.len() == size) & (body[0] <= 2) & (body[1] <= 1) & body[2..].starts_with(&[0; 6])
}

// The state whose three numbers stand from `at` on.
fn state_at(body: &[u8], at: usize) -> ResonanceState
    requires { at ≤ 280 }
    ensures { result ≡ state_at at body.now }
{
    ResonanceState {
        t: f64_at(body, at),
        mean_motion: f64_at(body, at + 8),
        lambda: f64_at(body, at + 16),
    }
}

// The state of a body of a kind, and none of a non-resonant one.
fn held_at(body: &[u8], kind: u32) -> Option<ResonanceState>
    ensures { result ≡ held_at kind body.now }
{
    if kind == 0 {
        return None;
    }
    Some(state_at(body, state_start(kind)))
}

// What a body says, where it passes 16, 17 and 18.
#[tactic(auto, unfolding(crate::specs::Read::body_read))]
pub fn read_body(body: &[u8]) -> Result<Record, BodyError>
    ensures { result ≡ body_read body.now }
{
    if !is_shaped(body) {
        return Err(BodyError::Wrong);
    }
    let kind = body[0] as u32;
    let x = floats_34(body, NUMBERS);
    let c = constants_of(kind, body[1] == 1, &x);
    examine(c, held_at(body, kind))
}

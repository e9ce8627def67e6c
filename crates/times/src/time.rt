// Times in minutes since epoch: where a state may stand, what may be asked of it, and whether one
// step more is due. The tests and the loop's end of `integrate` in deep_space.rs.
ghost use Rattle.std.specs.Prelude.{◌≡◌, T};
ghost use Rattle.std.specs.Float.Ieee.Scale.{finite};
ghost use Rattle.floats.specs.Value.{at_most};
ghost use Rattle.times.specs.Refusal.{number as fault_number};
ghost use Rattle.times.specs.Time.{limit, placed, same_way, not_earlier, refusal, delta, due};

use floats::finite::{is_finite, is_negative, magnitude};
use floats::remainder::rem;
use std::cmp::Ordering;

// Why a call of the integrator is refused, by the refusal's number.
#[derive(Clone, Copy, Debug, PartialEq, Eq)]
pub enum Fault {
    TimeNotFinite = 1,
    TimeBeyondLimit = 2,
    NumberNotFinite = 3,
    OrbitNonResonant = 4,
    NoState = 5,
    StateMisplaced = 6,
    NotOnward = 7,
    RatesRefused = 8,
}

impl Fault {
    // The refusal's number. (No `From`: `e.number()` says which number it is, by the same body.)
    pub fn number(self) -> u32
        ensures { result ≡ fault_number self }
    {
        self as u32
    }
}

// Whether x is at most 720·2^20 in size.
pub fn is_within(x: f64) -> bool
    ensures { result ≡ at_most limit x }
{
    (-754974720.0..=754974720.0).contains(&x)
}

// Whether x is a state's time: a multiple of 720 within the limit, and not -0.0.
pub fn is_placed(x: f64) -> bool
    ensures { result ≡ placed x }
{
    (rem(x, 720.0) == 0.0) & is_within(x) & !((x == 0.0) & is_negative(x))
}

// Whether the state's time s is 0, or has t's sign bit.
fn is_same_way(s: f64, t: f64) -> bool
    ensures { result ≡ same_way s t }
{
    (s == 0.0) | (is_negative(s) == is_negative(t))
}

// Whether |t| is not below the size of the state's time s.
#[tactic(auto, using(crate::proofs::Sizes::sizes))]
fn is_not_earlier(s: f64, t: f64) -> bool
    requires s_finite { T (finite s) }
    requires t_finite { T (finite t) }
    ensures { result ≡ not_earlier s t }
{
    magnitude(t) >= magnitude(s)
}

// The refusal among 1, 2, 6 and 7 of an ask at t, where the state's time is s.
#[tactic(auto, unfolding(crate::specs::Time::refusal))]
pub fn check_times(s: f64, t: f64) -> Result<(), Fault>
    ensures { result ≡ refusal s t }
{
    if !is_finite(t) {
        return Err(Fault::TimeNotFinite);
    }
    if !is_within(t) {
        return Err(Fault::TimeBeyondLimit);
    }
    if !is_placed(s) {
        return Err(Fault::StateMisplaced);
    }
    if !(is_same_way(s, t) & is_not_earlier(s, t)) {
        return Err(Fault::NotOnward);
    }
    Ok(())
}

// Δt: 720 min, or -720 min going back.
// (`back`, here and in crate resonance, is the answer of a test of times, and C's number: it gives a sign,
// and picks no step.)
pub fn delta_t(back: bool) -> f64
    ensures { result ≡ delta back }
{
    if back { -720.0 } else { 720.0 }
}

// Whether an ask at t steps on from the time s: not where t - Δt is less than s, or greater going
// back. A pair that has no order, as with a NaN, counts as equal.
#[tactic(auto, unfolding(crate::specs::Time::due), using(crate::proofs::Compared::ordering_is))]
pub fn is_due(back: bool, s: f64, t: f64) -> bool
    ensures { result ≡ due back s t }
{
    match (t - delta_t(back))
        .partial_cmp(&s)
        .unwrap_or(Ordering::Equal)
    {
        Ordering::Less => back,
        Ordering::Equal => true,
        Ordering::Greater => !back,
    }
}

// What a record must pass, whoever made it: refusals 16, 17 and 18 of constants with none or a state.
ghost use Rattle.std.specs.Prelude.{◌≡◌};
ghost use Rattle.body.specs.Examine.{number as number_of_error, of_its_class, finite_held, replayed, examined};

use orbit::class::class_of;
use orbit::propagator::{Constants, Resonant};
use rates::Integrator;
use record::{kind_of, kind_of_class};
use resonance::advance::replay;
use resonance::state::ResonanceState;

// What a record holds that has passed.
#[derive(Clone, Copy, Debug, PartialEq)]
pub struct Record {
    pub constants: Constants,
    pub state: Option<ResonanceState>,
    pub steps: u32, // those of the replay
}

// Why a record does not pass.
#[derive(Clone, Copy, Debug, PartialEq, Eq)]
pub enum BodyError {
    Wrong, // refusal 16
    NumberNotFinite, // refusal 17
    StateWrong { steps: u32 }, // refusal 18, and the steps of the replay made before it
}

impl BodyError {
    // The refusal's number. (No `From`: `e.number()` says which number it is, by the same body.)
    pub fn number(self) -> u32
        ensures { result ≡ number_of_error self }
    {
        match self {
            BodyError::Wrong => 16,
            BodyError::NumberNotFinite => 17,
            BodyError::StateWrong { .. } => 18,
        }
    }
}

// Whether the kind that constants carry is the class of their orbit.
#[tactic(auto, unfolding(crate::specs::Examine::of_its_class))]
fn is_of_its_class(c: Constants) -> bool
    ensures { result ≡ of_its_class c }
{
    kind_of(c) == kind_of_class(class_of(c.orbit_0.mean_motion, c.orbit_0.eccentricity))
}

// Whether the numbers of the state are finite, if there is one.
fn is_held_finite(s: Option<ResonanceState>) -> bool
    ensures { result ≡ finite_held s }
{
    s.is_none_or(|z| z.is_finite())
}

// The replay of the state from the fresh one of the constants: `Ok` where it gives the state. Either way its steps.
fn replay_held(c: Constants, s: Option<ResonanceState>) -> Result<u32, u32>
    ensures { result ≡ replayed c c.resonant s }
{
    match (c.resonant, s) {
        (Resonant::No { .. }, None) => Ok(0),
        (
            Resonant::Yes {
                lambda_0,
                lambda_dot_0,
                resonance,
                ..
            },
            Some(z),
        ) => {
            let integrator = Integrator {
                argument_of_perigee_0: c.orbit_0.argument_of_perigee,
                lambda_dot_0,
                resonance,
            };
            replay(integrator, c.orbit_0.mean_motion, lambda_0, z)
        }
        _ => Err(0),
    }
}

// Constants and state as they are, where they pass 16, 17 and 18.
#[tactic(auto, unfolding(crate::specs::Examine::examined))]
pub fn examine(c: Constants, s: Option<ResonanceState>) -> Result<Record, BodyError>
    ensures { result ≡ examined c s }
{
    if !is_of_its_class(c) {
        return Err(BodyError::Wrong);
    }
    if !(c.is_finite() & is_held_finite(s)) {
        return Err(BodyError::NumberNotFinite);
    }
    let steps = replay_held(c, s).map_err(|steps| BodyError::StateWrong { steps })?;
    Ok(Record {
        constants: c,
        state: s,
        steps,
    })
}

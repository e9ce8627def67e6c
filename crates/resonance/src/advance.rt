// The stepping of an ask to the last state not beyond its time, and the replay of a stored state:
// the loop of `integrate` in deep_space.rs, with refusals where it panics or does not end.
ghost use Rattle.std.specs.Prelude.{◌≡◌, Ok};
ghost use Rattle.times.specs.Time.{refusal};
ghost use Rattle.resonance.specs.Advance.{walk_of, advance_of, replay_of};

use crate::state::{Refused, ResonanceState};
use rates::Integrator;
use times::time::{Fault, check_times, is_due, is_placed};

// Where the loop ends, and the steps made.
#[derive(Clone, Copy, Debug, PartialEq)]
pub struct Walked {
    pub state: ResonanceState,
    pub steps: u32,
}

impl ResonanceState {
    // The loop, from a state that may be asked at t. `Err` has the steps made before refusal 8.
    fn walk(self, c: Integrator, t: f64) -> Result<Walked, u32>
        requires { refusal self.t t ≡ Ok tt }
        ensures { result ≡ walk_of c self t }
    {
        let back = !(t > 0.0);
        let mut state = self;
        let mut steps = 0u32;
        // by `while`: the loop ends by a test of floats, and no count of its steps is known before
        while is_due(back, state.t, t) {
            let Some(next) = state.next(c, back) else {
                return Err(steps);
            };
            state = next;
            steps += 1;
        }
        Ok(Walked { state, steps })
    }

    // The state at the last multiple of 720 min not beyond t, and the steps made to it. A refusal
    // hands the state back as it was given.
    pub fn advance(self, c: Integrator, t: f64) -> Result<Walked, Refused>
        ensures { result ≡ advance_of c self t }
    {
        // by a match: with `map_err(|fault| self.refused(fault))?` two goals of the closure stay open (tried)
        match check_times(self.t, t) {
            Err(fault) => Err(self.refused(fault)),
            Ok(()) => self.walk(c, t).or(Err(self.refused(Fault::RatesRefused))),
        }
    }
}

// Whether a stored state is the fresh state of n₀ and λ₀ after its own number of steps: `Ok` where
// the two agree in every bit. Either way the steps that were made.
pub fn replay(
    c: Integrator,
    mean_motion_0: f64,
    lambda_0: f64,
    stored: ResonanceState,
) -> Result<u32, u32>
    ensures { result ≡ replay_of c mean_motion_0 lambda_0 stored }
{
    if !is_placed(stored.t) {
        return Err(0);
    }
    let Walked { state, steps } = ResonanceState::new(mean_motion_0, lambda_0).walk(c, stored.t)?;
    if state.is_same(stored) {
        Ok(steps)
    } else {
        Err(steps)
    }
}

// The ask with the state lent and changed in place: the Rust's `&mut self`.
#![tactic(auto)]

ghost use Rattle.std.specs.Prelude.{◌≡◌};
ghost use Rattle.resonance.specs.Ask.{state_ask_of};
ghost use Rattle.in_place.specs.InPlace.{answered};

use elements::elements::Question;
use orbit::propagator::Constants;
use resonance::ask::Answer;
use resonance::state::ResonanceState;

// The answer and the steps made: what an ask returns beside the state. (An `Asked<()>` would have a state
// that says nothing.)
#[derive(Clone, Copy, Debug, PartialEq)]
pub struct InPlace {
    pub answer: Answer,
    pub steps: u32,
}

// The elements at the time asked, and the steps made. The state lent moves to the last node before
// that time; refusals 1 to 8, the non-resonant orbit's 4 among them, leave it as it was.
pub fn ask_in_place(state: &mut ResonanceState, c: Constants, q: Question) -> InPlace
    ensures returned { result ≡ answered (state_ask_of c state.old q) }
    ensures stored { state.new ≡ (state_ask_of c state.old q).state }
{
    let asked = state.ask(c, q);
    *state = asked.state;
    InPlace {
        answer: asked.answer,
        steps: asked.steps,
    }
}

// The whole ask: `deep_space_orbital_elements` with its state, in three parts: the checks of the
// time and the numbers, the stepping, and the answer on a node.
ghost use Rattle.std.specs.Prelude.{◌≡◌, None};
ghost use Rattle.resonance.specs.Ask.{theta_at, base_of, p29_of, node_of, numbers_refusal, given_back, resonant_ask, state_ask_of, plain_p29, none_answer_of, ask_of};

use crate::advance::Walked;
use crate::state::{Refused, ResonanceState};
use elements::elements::{Elements, ElementsError, Question, elements_at};
use floats::finite::is_finite;
use floats::remainder::rem;
use floats::root::two_thirds;
use orbit::propagator::{Constants, Resonance, Resonant};
use rates::{Integrator, Rates};
use std::f64::consts::TAU;
use times::time::{Fault, is_within};

// The answer of an ask. `Err` is refusals 1 to 8: the state comes back as it was given, with no
// step. `Ok` is elements, or refusals 9 to 12, with the advanced state and its steps.
pub type Answer = Result<Result<Elements, ElementsError>, Fault>;

// The answer, the state (`ResonanceState`, or an `Option` of it) and the steps made.
#[derive(Clone, Copy, Debug, PartialEq)]
pub struct Asked<S> {
    pub answer: Answer,
    pub state: S,
    pub steps: u32,
}

// θ = θ₀ + 4.37526908801129966 × 10⁻³ t rem 2π
fn theta(sidereal_time_0: f64, t: f64) -> f64
    ensures { result ≡ theta_at sidereal_time_0 t }
{
    rem(sidereal_time_0 + t * 4.37526908801129966e-3, TAU)
}

// Refusals 1, 2 and 3: the time, and then every other number given.
// (`is_state_finite` is a test's answer, true where there is no state. The first two tests are `check_times`'s too: a function for
// them would be one clause more and no line less.)
#[tactic(auto, unfolding(crate::specs::Ask::numbers_refusal))]
fn check_numbers(c: Constants, q: Question, is_state_finite: bool) -> Result<(), Fault>
    ensures { result ≡ numbers_refusal c q is_state_finite }
{
    if !is_finite(q.t) {
        return Err(Fault::TimeNotFinite);
    }
    if !is_within(q.t) {
        return Err(Fault::TimeBeyondLimit);
    }
    if !(q.is_finite() & is_state_finite & c.is_finite()) {
        return Err(Fault::NumberNotFinite);
    }
    Ok(())
}

impl ResonanceState {
    // kₑ / (nᵢ + ṅᵢ (t - tᵢ) + ¹/₂ n̈ᵢ (t - tᵢ)²)
    fn base(self, ke: f64, rates: Rates, t: f64) -> f64
        ensures { result ≡ base_of self ke rates t }
    {
        let rest = t - self.t;
        ke / (self.mean_motion + rates.ni_dot * rest + rates.ni_ddot * (rest * rest) * 0.5)
    }

    // p₂₉ = λᵢ + λ̇ᵢ (t - tᵢ) + ¹/₂ ṅᵢ (t - tᵢ)² - p₂₂ - p₂₃ + θ for the one-day resonance, and
    // p₂₉ = λᵢ + λ̇ᵢ (t - tᵢ) + ¹/₂ ṅᵢ (t - tᵢ)² - 2 p₂₂ + 2 θ for the half-day one
    fn p29(self, resonance: Resonance, rates: Rates, theta: f64, q: Question) -> f64
        ensures { result ≡ p29_of self resonance rates theta q }
    {
        let rest = q.t - self.t;
        let lambda = self.lambda + rates.lambda_dot * rest + rates.ni_dot * (rest * rest) * 0.5;
        match resonance {
            Resonance::OneDay { .. } => lambda - q.p22 - q.p23 + theta,
            Resonance::HalfDay { .. } => lambda - 2.0 * q.p22 + 2.0 * theta,
        }
    }

    // The answer on this state alone: its rates, and then the elements.
    #[tactic(auto, unfolding(crate::specs::Ask::node_of))]
    pub fn on_node(
        self,
        c: Constants,
        integrator: Integrator,
        sidereal_time_0: f64,
        q: Question,
    ) -> Answer
        ensures { result ≡ node_of c integrator sidereal_time_0 self q }
    {
        let rates = self.rates(integrator).ok_or(Fault::RatesRefused)?;
        let p28 = two_thirds(self.base(c.geopotential.ke, rates, q.t));
        let turned = theta(sidereal_time_0, q.t);
        let p29 = self.p29(integrator.resonance, rates, turned, q);
        Ok(elements_at(c, p28, p29, q))
    }

    // A refusal 1 to 8: the state as it was given, and no step.
    fn given(self, fault: Fault) -> Asked<ResonanceState>
        ensures { result ≡ given_back fault self }
    {
        Asked {
            answer: Err(fault),
            state: self,
            steps: 0,
        }
    }

    // The stepping to t, and then the answer on the last node.
    #[tactic(auto, unfolding(crate::specs::Ask::resonant_ask))]
    fn resonant_ask(
        self,
        c: Constants,
        integrator: Integrator,
        sidereal_time_0: f64,
        q: Question,
    ) -> Asked<ResonanceState>
        ensures { result ≡ resonant_ask c integrator sidereal_time_0 self q }
    {
        match self.advance(integrator, q.t) {
            Err(Refused { fault, state }) => state.given(fault),
            Ok(Walked { state: node, steps }) => {
                match node.on_node(c, integrator, sidereal_time_0, q) {
                    Err(fault) => self.given(fault),
                    Ok(outcome) => Asked {
                        answer: Ok(outcome),
                        state: node,
                        steps,
                    },
                }
            }
        }
    }

    // The elements at the time asked, the state moved to the last node before it, and the steps made.
    #[tactic(auto, unfolding(crate::specs::Ask::state_ask_of))]
    pub fn ask(self, c: Constants, q: Question) -> Asked<ResonanceState>
        ensures { result ≡ state_ask_of c self q }
    {
        if let Err(fault) = check_numbers(c, q, self.is_finite()) {
            return self.given(fault);
        }
        let Resonant::Yes {
            lambda_dot_0,
            sidereal_time_0,
            resonance,
            ..
        } = c.resonant
        else {
            return self.given(Fault::OrbitNonResonant);
        };
        // (written out in `step` and in body's `replay_held` too: of the three, two take one field more from the same pattern)
        let integrator = Integrator {
            argument_of_perigee_0: c.orbit_0.argument_of_perigee,
            lambda_dot_0,
            resonance,
        };
        self.resonant_ask(c, integrator, sidereal_time_0, q)
    }
}

// p₂₉ = M₀ + Ṁ t of a non-resonant orbit
#[tactic(auto, unfolding(crate::specs::Ask::plain_p29))]
fn plain_p29(c: Constants, t: f64) -> f64
    ensures { result ≡ plain_p29 c t }
{
    c.orbit_0.mean_anomaly + c.mean_anomaly_dot * t
}

// The answer of an ask without a state: that of a non-resonant orbit, where p₂₈ is a₀.
#[tactic(auto, unfolding(crate::specs::Ask::none_answer_of))]
fn none_answer(c: Constants, q: Question) -> Answer
    ensures { result ≡ none_answer_of c q }
{
    check_numbers(c, q, true)?;
    let Resonant::No { a0 } = c.resonant else {
        return Err(Fault::NoState);
    };
    let p29 = plain_p29(c, q.t);
    Ok(elements_at(c, Some(a0), p29, q))
}

// An ask with or without a state: non-resonant orbits have none.
pub fn ask(
    state: Option<ResonanceState>,
    c: Constants,
    q: Question,
) -> Asked<Option<ResonanceState>>
    ensures { result ≡ ask_of c state q }
{
    match state {
        None => Asked {
            answer: none_answer(c, q),
            state: None,
            steps: 0,
        },
        Some(state) => {
            let Asked {
                answer,
                state,
                steps,
            } = state.ask(c, q);
            Asked {
                answer,
                state: Some(state),
                steps,
            }
        }
    }
}

// The state of the resonance integrator and its step: `ResonanceState` of deep_space.rs, by value.
ghost use Rattle.std.specs.Prelude.{◌≡◌};
ghost use Rattle.resonance.specs.Rates.{rates_of};
ghost use Rattle.resonance.specs.State.{fresh_of, fresh, finite_state, same_state, moved_by, step_of, refused_with, placed_step, stepped};

use floats::finite::{bits_of, is_finite};
use orbit::propagator::{Constants, Resonance, Resonant};
use rates::{Integrator, Rates, half_day, one_day};
use times::time::{Fault, delta_t, is_placed};

// Half the square of Δt = 720 min.
const HALF_DELTA_T_SQUARED: f64 = 259200.0;

// The integrator's time in min since epoch, nᵢ in rad.min⁻¹ and λᵢ in rad.
#[derive(Clone, Copy, Debug, PartialEq)]
pub struct ResonanceState {
    pub t: f64,
    pub mean_motion: f64,
    pub lambda: f64,
}

// Why a step or a stepping is refused, and the state handed back.
#[derive(Clone, Copy, Debug, PartialEq)]
pub struct Refused {
    pub fault: Fault,
    pub state: ResonanceState,
}

impl ResonanceState {
    // The fresh state of n₀ in rad.min⁻¹ and λ₀ in rad.
    pub fn new(mean_motion_0: f64, lambda_0: f64) -> Self
        ensures { result ≡ fresh_of mean_motion_0 lambda_0 }
    {
        ResonanceState {
            t: 0.0,
            mean_motion: mean_motion_0,
            lambda: lambda_0,
        }
    }

    // The integrator's time in min since epoch: the Rust's `t`.
    pub fn time(self) -> f64
        ensures { result ≡ self.t }
    {
        self.t
    }

    // Whether time, mean motion and longitude are finite.
    pub fn is_finite(self) -> bool
        ensures { result ≡ finite_state self }
    {
        is_finite(self.t) & is_finite(self.mean_motion) & is_finite(self.lambda)
    }

    // Whether two states agree in every bit. (The derived `==` goes by value: it takes -0.0 for 0.0,
    // and a NaN for no other.)
    pub fn is_same(self, other: ResonanceState) -> bool
        ensures { result ≡ same_state self other }
    {
        (bits_of(self.t) == bits_of(other.t))
            & (bits_of(self.mean_motion) == bits_of(other.mean_motion))
            & (bits_of(self.lambda) == bits_of(other.lambda))
    }

    // The rates of this state.
    #[tactic(auto, unfolding(crate::specs::Rates::rates_of))]
    pub fn rates(self, c: Integrator) -> Option<Rates>
        ensures { result ≡ rates_of c self }
    {
        // λ̇ᵢ = nᵢ + λ̇₀
        let lambda_dot = self.mean_motion + c.lambda_dot_0;
        match c.resonance {
            Resonance::OneDay { dr1, dr2, dr3 } => one_day(self.lambda, lambda_dot, dr1, dr2, dr3),
            Resonance::HalfDay {
                d2201,
                d2211,
                d3210,
                d3222,
                d4410,
                d4422,
                d5220,
                d5232,
                d5421,
                d5433,
                k14,
            } => {
                // ωᵢ = ω₀ + k₁₄ tᵢ (the Rust's comment has ω̇, which k₁₄ is not)
                let w = c.argument_of_perigee_0 + k14 * self.t;
                half_day(
                    w,
                    self.lambda,
                    lambda_dot,
                    d2201,
                    d2211,
                    d3210,
                    d3222,
                    d4410,
                    d4422,
                    d5220,
                    d5232,
                    d5421,
                    d5433,
                )
            }
        }
    }

    // tᵢ₊₁ = tᵢ + Δt, nᵢ₊₁ = nᵢ + (ṅᵢ Δt + n̈ᵢ (Δt² / 2)), λᵢ₊₁ = λᵢ + (λ̇ᵢ Δt + ṅᵢ (Δt² / 2)), where all
    // three are finite.
    fn moved(self, delta_t: f64, rates: Rates) -> Option<ResonanceState>
        ensures { result ≡ moved_by self delta_t rates }
    {
        let next = ResonanceState {
            t: self.t + delta_t,
            mean_motion: self.mean_motion
                + (rates.ni_dot * delta_t + rates.ni_ddot * HALF_DELTA_T_SQUARED),
            lambda: self.lambda
                + (rates.lambda_dot * delta_t + rates.ni_dot * HALF_DELTA_T_SQUARED),
        };
        next.is_finite().then_some(next)
    }

    // The state one step on, or none where 8 arises. (`back` gives Δt its sign, here and below.)
    #[tactic(auto, unfolding(crate::specs::State::step_of))]
    pub fn next(self, c: Integrator, back: bool) -> Option<ResonanceState>
        ensures { result ≡ step_of c back self }
    {
        self.moved(delta_t(back), self.rates(c)?)
    }

    // A refusal that hands this state back.
    pub(crate) fn refused(self, fault: Fault) -> Refused
        ensures { result ≡ refused_with fault self }
    {
        Refused { fault, state: self }
    }

    // One step of 720 min, forward or back: refusals 3, 4, 6 and 8, in this order.
    #[tactic(auto, unfolding(crate::specs::State::stepped))]
    pub fn step(self, constants: Constants, back: bool) -> Result<ResonanceState, Refused>
        ensures { result ≡ stepped constants back self }
    {
        if !(constants.is_finite() & self.is_finite()) {
            return Err(self.refused(Fault::NumberNotFinite));
        }
        let Resonant::Yes {
            lambda_dot_0,
            resonance,
            ..
        } = constants.resonant
        else {
            return Err(self.refused(Fault::OrbitNonResonant));
        };
        let c = Integrator {
            argument_of_perigee_0: constants.orbit_0.argument_of_perigee,
            lambda_dot_0,
            resonance,
        };
        self.placed_step(c, back)
    }

    // One step, where the state stands at a time that it may have.
    #[tactic(auto, unfolding(crate::specs::State::placed_step))]
    fn placed_step(self, c: Integrator, back: bool) -> Result<ResonanceState, Refused>
        ensures { result ≡ placed_step c back self }
    {
        if !is_placed(self.t) {
            return Err(self.refused(Fault::StateMisplaced));
        }
        self.next(c, back).ok_or(self.refused(Fault::RatesRefused))
    }

    // The fresh state of the constants, whatever this one is.
    pub fn reset(self, constants: Constants) -> Option<ResonanceState>
        ensures { result ≡ fresh constants }
    {
        reset(Some(self), constants)
    }
}

// The fresh state of the constants, whatever the state is, or whether there is one: that it is not looked at is the promise.
pub fn reset(_state: Option<ResonanceState>, constants: Constants) -> Option<ResonanceState>
    ensures { result ≡ fresh constants }
{
    initial_state(constants)
}

// The fresh state of a resonant orbit, and none of any other: the Rust's `Constants::initial_state`.
pub fn initial_state(constants: Constants) -> Option<ResonanceState>
    ensures { result ≡ fresh constants }
{
    let Resonant::Yes { lambda_0, .. } = constants.resonant else {
        return None;
    };
    Some(ResonanceState::new(constants.orbit_0.mean_motion, lambda_0))
}

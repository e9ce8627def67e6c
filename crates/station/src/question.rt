// The question that stands for a time alone: node and perigee by their rates, and no lunisolar numbers.
use elements::elements::{Periodic, Question};
use orbit::propagator::Constants;

const NONE: Periodic = Periodic {
    delta_eccentricity: 0.0,
    delta_inclination: 0.0,
    delta_mean_motion: 0.0,
    p4: 0.0,
    p5: 0.0,
};

// p₂₂ = Ω₀ + Ω̇ t, p₂₃ = ω₀ + ω̇ t
pub fn at_time(c: Constants, t: f64) -> Question {
    Question {
        t,
        p22: c.orbit_0.right_ascension + c.right_ascension_dot * t,
        p23: c.orbit_0.argument_of_perigee + c.argument_of_perigee_dot * t,
        solar: NONE,
        lunar: NONE,
    }
}

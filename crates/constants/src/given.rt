// The numbers that a build is given beside the model and the orbit: arguments of `constants` of
// deep_space.rs. `b0` and `p2` feed only third_body and are not among them.
ghost use Rattle.std.specs.Prelude.{◌≡◌};
ghost use Rattle.constants.specs.Given.{finite_given, finite_dots, sum as sum_of};

use floats::finite::is_finite;

// The epoch in years since UTC 1 January 2000 12h00, and what the propagator has worked out.
#[derive(Clone, Copy, Debug, PartialEq)]
pub struct Given {
    pub epoch: f64,
    pub p1: f64,
    pub a0: f64,
    pub c1: f64,
    pub c4: f64,
    pub k0: f64,
    pub k1: f64,
    pub k14: f64,
    pub p14: f64,
    pub p15: f64,
}

// The rates that a third body gives the elements, per minute: `Dots` of third_body.rs.
#[derive(Clone, Copy, Debug, PartialEq)]
pub struct Dots {
    pub inclination: f64,
    pub right_ascension: f64,
    pub eccentricity: f64,
    pub argument_of_perigee: f64,
    pub mean_anomaly: f64,
}

// (Chains of `&`, for the reason that `Geopotential::is_finite` gives.)
impl Given {
    // Whether every number is finite.
    pub fn is_finite(self) -> bool
        ensures { result ≡ finite_given self }
    {
        is_finite(self.epoch)
            & is_finite(self.p1)
            & is_finite(self.a0)
            & is_finite(self.c1)
            & is_finite(self.c4)
            & is_finite(self.k0)
            & is_finite(self.k1)
            & is_finite(self.k14)
            & is_finite(self.p14)
            & is_finite(self.p15)
    }
}

impl Dots {
    // Whether every rate is finite.
    pub fn is_finite(self) -> bool
        ensures { result ≡ finite_dots self }
    {
        is_finite(self.inclination)
            & is_finite(self.right_ascension)
            & is_finite(self.eccentricity)
            & is_finite(self.argument_of_perigee)
            & is_finite(self.mean_anomaly)
    }
}

// The rates of the Sun and of the Moon together: every use of them in the Rust adds them first.
// (No `impl Add`: the same body with two ghost members more, for one use.)
pub fn sum(solar: Dots, lunar: Dots) -> Dots
    ensures { result ≡ sum_of solar lunar }
{
    Dots {
        inclination: solar.inclination + lunar.inclination,
        right_ascension: solar.right_ascension + lunar.right_ascension,
        eccentricity: solar.eccentricity + lunar.eccentricity,
        argument_of_perigee: solar.argument_of_perigee + lunar.argument_of_perigee,
        mean_anomaly: solar.mean_anomaly + lunar.mean_anomaly,
    }
}

// What the constants of an orbit hold: the types of propagator.rs, deep space only.
ghost use Rattle.std.specs.Prelude.{◌≡◌};
ghost use Rattle.orbit.specs.Propagator.{finite_orbit, finite_resonance, finite_resonant, finite_constants};

use crate::model::Geopotential;
use floats::finite::is_finite;

// The Brouwer orbital elements: angles in rad, mean motion in rad.min⁻¹.
#[derive(Clone, Copy, Debug, PartialEq)]
pub struct Orbit {
    pub inclination: f64,
    pub right_ascension: f64,
    pub eccentricity: f64,
    pub argument_of_perigee: f64,
    pub mean_anomaly: f64,
    pub mean_motion: f64,
}

// The coefficients of the two resonances, in the order of the Rust's enum.
#[derive(Clone, Copy, Debug, PartialEq)]
pub enum Resonance {
    OneDay {
        dr1: f64,
        dr2: f64,
        dr3: f64,
    },
    HalfDay {
        d2201: f64,
        d2211: f64,
        d3210: f64,
        d3222: f64,
        d4410: f64,
        d4422: f64,
        d5220: f64,
        d5232: f64,
        d5421: f64,
        d5433: f64,
        k14: f64,
    },
}

// What only a non-resonant orbit has, or only a resonant one.
#[derive(Clone, Copy, Debug, PartialEq)]
pub enum Resonant {
    No {
        a0: f64,
    },
    Yes {
        lambda_0: f64,
        lambda_dot_0: f64,
        sidereal_time_0: f64,
        resonance: Resonance,
    },
}

// The constants of an orbit. The AFSPC flag, an argument in the Rust, is a field here.
#[derive(Clone, Copy, Debug, PartialEq)]
pub struct Constants {
    pub geopotential: Geopotential,
    pub orbit_0: Orbit,
    pub right_ascension_dot: f64,
    pub argument_of_perigee_dot: f64,
    pub mean_anomaly_dot: f64,
    pub c1: f64,
    pub c4: f64,
    pub k0: f64,
    pub k1: f64,
    pub eccentricity_dot: f64,
    pub inclination_dot: f64,
    pub afspc_compatibility_mode: bool,
    pub resonant: Resonant,
}

impl Orbit {
    // Whether every element is finite.
    pub fn is_finite(self) -> bool
        ensures { result ≡ finite_orbit self }
    {
        is_finite(self.inclination)
            & is_finite(self.right_ascension)
            & is_finite(self.eccentricity)
            & is_finite(self.argument_of_perigee)
            & is_finite(self.mean_anomaly)
            & is_finite(self.mean_motion)
    }
}

impl Resonance {
    // Whether every coefficient is finite.
    pub fn is_finite(self) -> bool
        ensures { result ≡ finite_resonance self }
    {
        match self {
            Resonance::OneDay { dr1, dr2, dr3 } => {
                is_finite(dr1) & is_finite(dr2) & is_finite(dr3)
            }
            Resonance::HalfDay {
                d2201,
                d2211,
                d3210,
                d3222,
                d4410,
                d4422,
                d5220,
                d5232,
                d5421,
                d5433,
                k14,
            } => {
                is_finite(d2201)
                    & is_finite(d2211)
                    & is_finite(d3210)
                    & is_finite(d3222)
                    & is_finite(d4410)
                    & is_finite(d4422)
                    & is_finite(d5220)
                    & is_finite(d5232)
                    & is_finite(d5421)
                    & is_finite(d5433)
                    & is_finite(k14)
            }
        }
    }
}

impl Resonant {
    // Whether every number is finite: `a0` alone, or those of the resonance.
    pub fn is_finite(self) -> bool
        ensures { result ≡ finite_resonant self }
    {
        match self {
            Resonant::No { a0 } => is_finite(a0),
            Resonant::Yes {
                lambda_0,
                lambda_dot_0,
                sidereal_time_0,
                resonance,
            } => {
                is_finite(lambda_0)
                    & is_finite(lambda_dot_0)
                    & is_finite(sidereal_time_0)
                    & resonance.is_finite()
            }
        }
    }
}

impl Constants {
    // Whether every number of the constants is finite.
    pub fn is_finite(self) -> bool
        ensures { result ≡ finite_constants self }
    {
        self.geopotential.is_finite()
            & self.orbit_0.is_finite()
            & is_finite(self.right_ascension_dot)
            & is_finite(self.argument_of_perigee_dot)
            & is_finite(self.mean_anomaly_dot)
            & is_finite(self.c1)
            & is_finite(self.c4)
            & is_finite(self.k0)
            & is_finite(self.k1)
            & is_finite(self.eccentricity_dot)
            & is_finite(self.inclination_dot)
            & self.resonant.is_finite()
    }
}

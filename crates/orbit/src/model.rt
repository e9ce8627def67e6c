// Model of the Earth's radius and gravity, and the two sidereal times: model.rs.
ghost use Rattle.std.specs.Prelude.{◌≡◌, Err};
ghost use Rattle.orbit.specs.Model.{wgs84_model, wgs72_model, finite_geopotential, iau_theta_0, afspc_theta_0, theta_0, sidereal_of, number};

use floats::finite::is_finite;
use floats::floor::floor;
use floats::power::{cube, square};
use floats::remainder::rem_euclid;
use std::f64::consts::{PI, TAU};

// aₑ in km, kₑ in earth radii³ᐟ² min⁻¹, and the zonal harmonics J₂, J₃, J₄.
#[derive(Clone, Copy, Debug, PartialEq)]
pub struct Geopotential {
    pub ae: f64,
    pub ke: f64,
    pub j2: f64,
    pub j3: f64,
    pub j4: f64,
}

// The geopotential model recommended by the IAU. (Two functions, as the Rust has: each is its five numbers
// and no more.)
pub fn wgs84() -> Geopotential
    ensures { result ≡ wgs84_model }
{
    Geopotential {
        ae: 6378.137,
        ke: 0.07436685316871385,
        j2: 0.00108262998905,
        j3: -0.00000253215306,
        j4: -0.00000161098761,
    }
}

// The geopotential model of the AFSPC implementation.
pub fn wgs72() -> Geopotential
    ensures { result ≡ wgs72_model }
{
    Geopotential {
        ae: 6378.135,
        ke: 0.07436691613317342,
        j2: 0.001082616,
        j3: -0.00000253881,
        j4: -0.00000165597,
    }
}

impl Geopotential {
    // Whether every number of the model is finite. Here and below `&`: `[..].iter().all(is_finite)` was tried and is
    // proved, but takes a third more time (23.1 ns for 17.6 at all 34 numbers), since it stops at each.
    pub fn is_finite(self) -> bool
        ensures { result ≡ finite_geopotential self }
    {
        is_finite(self.ae)
            & is_finite(self.ke)
            & is_finite(self.j2)
            & is_finite(self.j3)
            & is_finite(self.j4)
    }
}

// Which of the two expressions gives the sidereal time. The Rust takes a function there; here the clauses
// of `sidereal_time` and of constants' `build` name the expression (`theta_0`), and so does C's number.
#[derive(Clone, Copy, Debug, PartialEq, Eq)]
pub enum SiderealTime {
    Iau,
    Afspc,
}

// Why a sidereal time called alone is refused, by the refusal's number.
#[derive(Clone, Copy, Debug, PartialEq, Eq)]
pub enum SiderealError {
    EpochNotFinite = 3,
    NotFinite = 13,
}

impl SiderealError {
    // The refusal's number. (No `From`: `e.number()` says which number it is, by the same body.)
    pub fn number(self) -> u32
        ensures { result ≡ number (Err self) }
    {
        self as u32
    }
}

// The sidereal time in rad by the IAU expression; the epoch in years since UTC 1 January 2000 12h00.
pub fn iau_epoch_to_sidereal_time(epoch: f64) -> f64
    ensures { result ≡ iau_theta_0 epoch }
{
    // c₂₀₀₀ = y₂₀₀₀ / 100
    let c2000 = epoch / 100.0;
    // θ₀ = ¹/₂₄₀ (π / 180) (- 6.2 × 10⁻⁶ c₂₀₀₀³ + 0.093104 c₂₀₀₀²
    //      + (876600 × 3600 + 8640184.812866) c₂₀₀₀ + 67310.54841) mod 2π
    let theta = (-6.2e-6 * cube(c2000)
        + 0.093104 * square(c2000)
        + (876600.0 * 3600.0 + 8640184.812866) * c2000
        + 67310.54841)
        * (PI / 180.0)
        / 240.0;
    rem_euclid(theta, TAU)
}

// The sidereal time in rad by the AFSPC expression; the epoch as above.
pub fn afspc_epoch_to_sidereal_time(epoch: f64) -> f64
    ensures { result ≡ afspc_theta_0 epoch }
{
    // d₁₉₇₀ = 365.25 (y₂₀₀₀ + 30) + 1
    let d1970 = (epoch + 30.0) * 365.25 + 1.0;
    let whole = floor(d1970 + 1.0e-8);
    // θ₀ = 1.7321343856509374 + 1.72027916940703639 × 10⁻² ⌊d₁₉₇₀ + 10⁻⁸⌋
    //      + (1.72027916940703639 × 10⁻² + 2π) (d₁₉₇₀ - ⌊d₁₉₇₀ + 10⁻⁸⌋)
    //      + 5.07551419432269442 × 10⁻¹⁵ d₁₉₇₀² mod 2π (the Rust's comment has t₁₉₇₀)
    let theta = 1.7321343856509374
        + 1.72027916940703639e-2 * whole
        + (1.72027916940703639e-2 + TAU) * (d1970 - whole)
        + square(d1970) * 5.07551419432269442e-15;
    rem_euclid(theta, TAU)
}

// The sidereal time in rad by the expression named, for every epoch.
pub fn epoch_to_sidereal_time(which: SiderealTime, epoch: f64) -> f64
    ensures { result ≡ theta_0 which epoch }
{
    match which {
        SiderealTime::Iau => iau_epoch_to_sidereal_time(epoch),
        SiderealTime::Afspc => afspc_epoch_to_sidereal_time(epoch),
    }
}

// The sidereal time called alone: refused where the epoch or the answer is not finite.
pub fn sidereal_time(which: SiderealTime, epoch: f64) -> Result<f64, SiderealError>
    ensures { result ≡ sidereal_of which epoch }
{
    if !is_finite(epoch) {
        return Err(SiderealError::EpochNotFinite);
    }
    let theta = epoch_to_sidereal_time(which, epoch);
    if !is_finite(theta) {
        return Err(SiderealError::NotFinite);
    }
    Ok(theta)
}

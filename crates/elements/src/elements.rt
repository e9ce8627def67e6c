// The elements from p28 and p29: everything of an ask past the resonance integrator.
ghost use Rattle.std.specs.Prelude.{◌≡◌};
ghost use Rattle.elements.specs.Elements.{tilt as tilt_of, p4 as p4_of, p5 as p5_of, inclination_at, high as high_of, p30_of, near_turn, low_node, low as low_of, plane_of, p31_of, in_range, perturbed, in_unit, a_of, power_of, divisor as divisor_of, elements_at, finite_periodic, finite_question, finite_elements, completed_of, number as number_of, elements_of};

use floats::atan::atan2;
use floats::finite::{is_finite, magnitude};
use floats::remainder::{rem, rem_euclid};
use floats::root::three_halves;
use floats::trig::{SinCos, sin_cos};
use orbit::propagator::{Constants, Orbit};
use std::f64::consts::{PI, TAU};

// The five numbers of the Sun or the Moon at a time. `delta_mean_motion` has the Rust's name: it is
// a change of mean anomaly, in rad.
#[derive(Clone, Copy, Debug, PartialEq)]
pub struct Periodic {
    pub delta_eccentricity: f64,
    pub delta_inclination: f64,
    pub delta_mean_motion: f64,
    pub p4: f64,
    pub p5: f64,
}

// What is asked: the time in minutes since epoch, p22 and p23, and the lunisolar numbers.
#[derive(Clone, Copy, Debug, PartialEq)]
pub struct Question {
    pub t: f64,
    pub p22: f64,
    pub p23: f64,
    pub solar: Periodic,
    pub lunar: Periodic,
}

// The orbit at the time asked, and the numbers that the Rust hands on with it.
#[derive(Clone, Copy, Debug, PartialEq)]
pub struct Elements {
    pub orbit: Orbit,
    pub a: f64,
    pub p32: f64,
    pub p33: f64,
    pub p34: f64,
    pub p35: f64,
    pub p36: f64,
}

// Why there are no elements.
#[derive(Clone, Copy, Debug, PartialEq)]
pub enum ElementsError {
    AngleRefused, // refusal 9
    OutOfRangeEccentricity { eccentricity: f64, t: f64 }, // refusal 10
    OutOfRangePerturbedEccentricity { eccentricity: f64, t: f64 }, // refusal 11
    ElementsNotFinite, // refusal 12
}

// Node and perigee at the time asked.
#[derive(Clone, Copy, Debug, PartialEq)]
struct Plane {
    right_ascension: f64,
    argument_of_perigee: f64,
}

// What is known of the orbit before its size is: sin I and cos I too.
#[derive(Clone, Copy, Debug, PartialEq)]
struct Shape {
    inclination: f64,
    right_ascension: f64,
    eccentricity: f64,
    argument_of_perigee: f64,
    sin: f64,
    cos: f64,
}

// I = I₀ + İ t + (δIₛ + δIₗ)
#[tactic(auto, unfolding(crate::specs::Elements::inclination_at))]
fn inclination_at(c: Constants, q: Question) -> f64
    ensures { result ≡ inclination_at c q }
{
    c.orbit_0.inclination + c.inclination_dot * q.t + q.tilt()
}

// Ω = p₂₂ + (pₛ₅ + pₗ₅) / sin I and ω = p₂₃ + (pₛ₄ + pₗ₄) - cos I (pₛ₅ + pₗ₅) / sin I
#[tactic(auto, unfolding(crate::specs::Elements::high))]
fn high(q: Question, w: SinCos) -> Plane
    ensures { result ≡ high_of q w }
{
    let p5 = q.p5() / w.sin;
    Plane {
        right_ascension: q.p22 + p5,
        argument_of_perigee: q.p23 + q.p4() - w.cos * p5,
    }
}

//             sin I sin p₂₂ + (pₛ₅ + pₗ₅) cos p₂₂ + (δIₛ + δIₗ) cos I sin p₂₂
// p₃₀ = tan⁻¹ -------------------------------------------------------------
//             sin I cos p₂₂ - (pₛ₅ + pₗ₅) sin p₂₂ + (δIₛ + δIₗ) cos I cos p₂₂
#[tactic(auto, unfolding(crate::specs::Elements::p30_of))]
fn p30(q: Question, w: SinCos, node: SinCos) -> f64
    ensures { result ≡ p30_of q w node }
{
    let p5 = q.p5();
    let tilt = q.tilt() * w.cos;
    atan2(
        w.sin * node.sin + (p5 * node.cos + tilt * node.sin),
        w.sin * node.cos + (-p5 * node.sin + tilt * node.cos),
    )
}

// Ω = │ p₃₀ + 2π if p₃₀ < (p₂₂ rem 2π) - π (the Rust's comment has p₃₀ + π < p₂₂ rem 2π)
//     │ p₃₀ - 2π if p₃₀ > (p₂₂ rem 2π) + π
//     │ p₃₀      otherwise
fn near_turn(p30: f64, turn: f64) -> f64
    ensures { result ≡ near_turn p30 turn }
{
    if p30 < turn - PI {
        return p30 + TAU;
    }
    if p30 > turn + PI {
        return p30 - TAU;
    }
    p30
}

// p₂₂ mod 2π in AFSPC compatibility mode, p₂₂ rem 2π otherwise
// (The flag is a field of the constants, the file's and C's: a closure for this one test would be no
// plainer.)
fn low_node(afspc_compatibility_mode: bool, p22: f64) -> f64
    ensures { result ≡ low_node afspc_compatibility_mode p22 }
{
    if afspc_compatibility_mode {
        return rem_euclid(p22, TAU);
    }
    rem(p22, TAU)
}

// ω = p₂₃ + (pₛ₄ + pₗ₄) + cos I ((p₂₂ rem 2π) - Ω) - (δIₛ + δIₗ) (p₂₂ mod or rem 2π) sin I
fn low(afspc_compatibility_mode: bool, q: Question, w: SinCos) -> Option<Plane>
    ensures { result ≡ low_of afspc_compatibility_mode q w }
{
    let node = sin_cos(q.p22)?;
    let turn = rem(q.p22, TAU);
    let right_ascension = near_turn(p30(q, w, node), turn);
    let last = low_node(afspc_compatibility_mode, q.p22);
    Some(Plane {
        right_ascension,
        argument_of_perigee: q.p23 + q.p4() + w.cos * (turn - right_ascension)
            - q.tilt() * last * w.sin,
    })
}

// By the inclination: p₂₂'s sine and cosine are taken below 0.2 only.
fn plane_at(
    afspc_compatibility_mode: bool,
    q: Question,
    inclination: f64,
    w: SinCos,
) -> Option<Plane>
    ensures { result ≡ plane_of afspc_compatibility_mode q inclination w }
{
    if inclination >= 0.2 {
        return Some(high(q, w));
    }
    low(afspc_compatibility_mode, q, w)
}

// p₃₁ = e₀ + ė t - C₄ t
#[tactic(auto, unfolding(crate::specs::Elements::p31_of))]
fn p31(c: Constants, t: f64) -> f64
    ensures { result ≡ p31_of c t }
{
    c.orbit_0.eccentricity + c.eccentricity_dot * t - c.c4 * t
}

// Whether -0.001 <= p₃₁ < 1.
fn is_in_range(p31: f64) -> bool
    ensures { result ≡ in_range p31 }
{
    (-0.001..1.0).contains(&p31)
}

// e = p₃₁, or 10⁻⁶ where p₃₁ < 10⁻⁶, plus (δeₛ + δeₗ). (`f64::max` is no such thing: `perturbed` keeps
// a NaN.)
fn perturbed_eccentricity(p31: f64, q: Question) -> f64
    ensures { result ≡ perturbed p31 q }
{
    let delta = q.solar.delta_eccentricity + q.lunar.delta_eccentricity;
    if p31 < 1.0e-6 {
        return 1.0e-6 + delta;
    }
    p31 + delta
}

// Whether 0 <= e <= 1.
fn is_in_unit(eccentricity: f64) -> bool
    ensures { result ≡ in_unit eccentricity }
{
    (0.0..=1.0).contains(&eccentricity)
}

// a³ᐟ² of a base that is positive and finite.
fn power(a: f64) -> Option<f64>
    ensures { result ≡ power_of a }
{
    if a > 0.0 {
        return three_halves(a);
    }
    None
}

// a = p₂₈ (1 - C₁ t)²
fn semi_major_axis(c: Constants, t: f64, p28: f64) -> f64
    ensures { result ≡ a_of c t p28 }
{
    let shrink = 1.0 - c.c1 * t;
    p28 * (shrink * shrink)
}

// 1 + cos I, or 1.5 × 10⁻¹² where |1 + cos I| is not above that.
fn divisor(cos: f64) -> f64
    ensures { result ≡ divisor_of cos }
{
    let x = 1.0 + cos;
    if magnitude(x) > 1.5e-12 {
        return x;
    }
    1.5e-12
}

// The twelve numbers of an answer; `power` is a³ᐟ².
fn numbers(c: Constants, q: Question, s: Shape, p29: f64, a: f64, power: f64) -> Elements
    ensures { result ≡ elements_at c q s p29 a power }
{
    // J₃ / J₂
    let ratio = c.geopotential.j3 / c.geopotential.j2;
    let cos2 = s.cos * s.cos;
    let orbit = Orbit {
        inclination: s.inclination,
        right_ascension: s.right_ascension,
        eccentricity: s.eccentricity,
        argument_of_perigee: s.argument_of_perigee,
        // M = p₂₉ + (δMₛ + δMₗ) + n₀ k₁ t²
        mean_anomaly: p29
            + (q.solar.delta_mean_motion + q.lunar.delta_mean_motion)
            + c.orbit_0.mean_motion * c.k1 * (q.t * q.t),
        // n = kₑ / a³ᐟ²
        mean_motion: c.geopotential.ke / power,
    };
    Elements {
        orbit,
        a,
        // p₃₂ = - ½ (J₃ / J₂) sin I
        p32: -0.5 * ratio * s.sin,
        // p₃₃ = 1 - cos²I
        p33: 1.0 - cos2,
        // p₃₄ = 7 cos²I - 1
        p34: 7.0 * cos2 - 1.0,
        // p₃₅ = - ¼ (J₃ / J₂) sin I (3 + 5 cos I) / (1 + cos I)
        p35: -0.25 * ratio * s.sin * (3.0 + 5.0 * s.cos) / divisor(s.cos),
        // p₃₆ = 3 cos²I - 1
        p36: 3.0 * cos2 - 1.0,
    }
}

// (Chains of `&`, for the reason that `Geopotential::is_finite` gives.)
impl Periodic {
    // Whether each of the five numbers is finite.
    pub fn is_finite(self) -> bool
        ensures { result ≡ finite_periodic self }
    {
        is_finite(self.delta_eccentricity)
            & is_finite(self.delta_inclination)
            & is_finite(self.delta_mean_motion)
            & is_finite(self.p4)
            & is_finite(self.p5)
    }
}

impl Question {
    // δIₛ + δIₗ
    fn tilt(self) -> f64
        ensures { result ≡ tilt_of self }
    {
        self.solar.delta_inclination + self.lunar.delta_inclination
    }

    // pₛ₄ + pₗ₄
    fn p4(self) -> f64
        ensures { result ≡ p4_of self }
    {
        self.solar.p4 + self.lunar.p4
    }

    // pₛ₅ + pₗ₅
    fn p5(self) -> f64
        ensures { result ≡ p5_of self }
    {
        self.solar.p5 + self.lunar.p5
    }

    // Whether every number but the time is finite.
    pub fn is_finite(self) -> bool
        ensures { result ≡ finite_question self }
    {
        is_finite(self.p22) & is_finite(self.p23) & self.solar.is_finite() & self.lunar.is_finite()
    }
}

impl Elements {
    // Whether each of the twelve numbers is finite.
    pub fn is_finite(self) -> bool
        ensures { result ≡ finite_elements self }
    {
        self.orbit.is_finite()
            & is_finite(self.a)
            & is_finite(self.p32)
            & is_finite(self.p33)
            & is_finite(self.p34)
            & is_finite(self.p35)
            & is_finite(self.p36)
    }
}

impl ElementsError {
    // The refusal's number. (No `From`: `e.number()` says which number it is, by the same body.)
    pub fn number(self) -> u32
        ensures { result ≡ number_of self }
    {
        match self {
            ElementsError::AngleRefused => 9,
            ElementsError::OutOfRangeEccentricity { .. } => 10,
            ElementsError::OutOfRangePerturbedEccentricity { .. } => 11,
            ElementsError::ElementsNotFinite => 12,
        }
    }
}

// The elements of a shape; none where a base is refused or a number is not finite.
#[tactic(auto, unfolding(crate::specs::Elements::completed_of))]
fn completed(c: Constants, q: Question, s: Shape, p29: f64, p28: Option<f64>) -> Option<Elements>
    ensures { result ≡ completed_of c q s p29 p28 }
{
    let a = semi_major_axis(c, q.t, p28?);
    let e = numbers(c, q, s, p29, a, power(a)?);
    e.is_finite().then_some(e)
}

// x; a NaN by the one pattern that the compiler gives 0.0 / 0.0.
fn one_nan(x: f64) -> f64
    ensures { result ≡ x }
{
    if x.is_nan() {
        return f64::NAN;
    }
    x
}

// The elements from p28 and p29, or refusals 9 to 12. A refused p28 is reported last.
#[tactic(auto, unfolding(crate::specs::Elements::elements_of))]
pub fn elements_at(
    c: Constants,
    p28: Option<f64>,
    p29: f64,
    q: Question,
) -> Result<Elements, ElementsError>
    ensures { result ≡ elements_of c p28 p29 q }
{
    let inclination = inclination_at(c, q);
    let w = sin_cos(inclination).ok_or(ElementsError::AngleRefused)?;
    let plane = plane_at(c.afspc_compatibility_mode, q, inclination, w).ok_or(
        ElementsError::AngleRefused,
    )?;
    let p31 = p31(c, q.t);
    if !is_in_range(p31) {
        return Err(ElementsError::OutOfRangeEccentricity {
            eccentricity: one_nan(p31),
            t: q.t,
        });
    }
    let eccentricity = perturbed_eccentricity(p31, q);
    if !is_in_unit(eccentricity) {
        return Err(ElementsError::OutOfRangePerturbedEccentricity {
            eccentricity: one_nan(eccentricity),
            t: q.t,
        });
    }
    let Plane {
        right_ascension,
        argument_of_perigee,
    } = plane;
    let SinCos { sin, cos } = w;
    let shape = Shape {
        inclination,
        right_ascension,
        eccentricity,
        argument_of_perigee,
        sin,
        cos,
    };
    completed(c, q, shape, p29, p28).ok_or(ElementsError::ElementsNotFinite)
}

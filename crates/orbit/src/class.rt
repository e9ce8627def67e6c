// The class of an orbit, by its mean motion and eccentricity.
ghost use Rattle.std.specs.Prelude.{◌≡◌};
ghost use Rattle.orbit.specs.Class.{one_day, half_day, class_of};

// The three classes: an orbit is resonant in two of them.
#[derive(Clone, Copy, Debug, PartialEq, Eq)]
pub enum Class {
    NonResonant,
    OneDay,
    HalfDay,
}

// Whether an orbit of mean motion n, in rad.min⁻¹, is in the resonance of one day.
pub fn is_one_day(n: f64) -> bool
    ensures { result ≡ one_day n }
{
    (n < 0.0052359877) & (n > 0.0034906585)
}

// Whether the mean motion n and the eccentricity e are those of the resonance of half a day.
// (Comparisons, as above, where no range of Rust's leaves out its lower end.)
pub fn is_half_day(n: f64, e: f64) -> bool
    ensures { result ≡ half_day n e }
{
    (n >= 8.26e-3) & (n <= 9.24e-3) & (e >= 0.5)
}

// The class of an orbit of mean motion n and eccentricity e: total, a NaN passes no test.
pub fn class_of(n: f64, e: f64) -> Class
    ensures { result ≡ class_of n e }
{
    if is_one_day(n) {
        Class::OneDay
    } else if is_half_day(n, e) {
        Class::HalfDay
    } else {
        Class::NonResonant
    }
}

// The functions G of the eccentricity e₀ that the coefficients of the half-day resonance take. What they share is
// `cubic`, `quadratic` and two tests; one function over a table of their numbers would be no plainer, as each formula
// stands above its own.
ghost use Rattle.std.specs.Prelude.{◌≡◌};
ghost use Rattle.coefficients.specs.Eccentricity.{up_to65, below70, cubic as cubic_of, quadratic as quadratic_of, g211 as g211_of, g310 as g310_of, g322 as g322_of, g410 as g410_of, g422 as g422_of, g520 as g520_of, g532 as g532_of, g521 as g521_of, g533 as g533_of};

use floats::power::{cube, square};

// e₀ ≤ 0.65
fn up_to_65(e: f64) -> bool
    ensures { result ≡ up_to65 e }
{
    e <= 0.65
}

// e₀ < 0.7
fn below_70(e: f64) -> bool
    ensures { result ≡ below70 e }
{
    e < 0.7
}

// a + b e₀ - c e₀² + d e₀³
fn cubic(e: f64, a: f64, b: f64, c: f64, d: f64) -> f64
    ensures { result ≡ cubic_of e a b c d }
{
    a + b * e - c * square(e) + d * cube(e)
}

// a - b e₀ + c e₀²
fn quadratic(e: f64, a: f64, b: f64, c: f64) -> f64
    ensures { result ≡ quadratic_of e a b c }
{
    a - b * e + c * square(e)
}

// G₂₁₁ = │ 3.616 - 13.247 e₀ + 16.29 e₀² if e₀ ≤ 0.65
//        │ - 72.099 + 331.819 e₀ - 508.738 e₀² + 266.724 e₀³ otherwise
pub fn g211(e: f64) -> f64
    ensures { result ≡ g211_of e }
{
    if up_to_65(e) {
        quadratic(e, 3.616, 13.247, 16.29)
    } else {
        cubic(e, -72.099, 331.819, 508.738, 266.724)
    }
}

// G₃₁₀ = │ - 19.302 + 117.39 e₀ - 228.419 e₀² + 156.591 e₀³ if e₀ ≤ 0.65
//        │ - 346.844 + 1582.851 e₀ - 2415.925 e₀² + 1246.113 e₀³ otherwise
pub fn g310(e: f64) -> f64
    ensures { result ≡ g310_of e }
{
    if up_to_65(e) {
        cubic(e, -19.302, 117.39, 228.419, 156.591)
    } else {
        cubic(e, -346.844, 1582.851, 2415.925, 1246.113)
    }
}

// G₃₂₂ = │ - 18.9068 + 109.7927 e₀ - 214.6334 e₀² + 146.5816 e₀³ if e₀ ≤ 0.65
//        │ - 342.585 + 1554.908 e₀ - 2366.899 e₀² + 1215.972 e₀³ otherwise
pub fn g322(e: f64) -> f64
    ensures { result ≡ g322_of e }
{
    if up_to_65(e) {
        cubic(e, -18.9068, 109.7927, 214.6334, 146.5816)
    } else {
        cubic(e, -342.585, 1554.908, 2366.899, 1215.972)
    }
}

// G₄₁₀ = │ - 41.122 + 242.694 e₀ - 471.094 e₀² + 313.953 e₀³ if e₀ ≤ 0.65
//        │ - 1052.797 + 4758.686 e₀ - 7193.992 e₀² + 3651.957 e₀³ otherwise
pub fn g410(e: f64) -> f64
    ensures { result ≡ g410_of e }
{
    if up_to_65(e) {
        cubic(e, -41.122, 242.694, 471.094, 313.953)
    } else {
        cubic(e, -1052.797, 4758.686, 7193.992, 3651.957)
    }
}

// G₄₂₂ = │ - 146.407 + 841.88 e₀ - 1629.014 e₀² + 1083.435 e₀³ if e₀ ≤ 0.65
//        │ - 3581.69 + 16178.11 e₀ - 24462.77 e₀² + 12422.52 e₀³ otherwise
pub fn g422(e: f64) -> f64
    ensures { result ≡ g422_of e }
{
    if up_to_65(e) {
        cubic(e, -146.407, 841.88, 1629.014, 1083.435)
    } else {
        cubic(e, -3581.69, 16178.11, 24462.77, 12422.52)
    }
}

// G₅₂₀ = │ - 532.114 + 3017.977 e₀ - 5740.032 e₀² + 3708.276 e₀³ if e₀ ≤ 0.65
//        │ 1464.74 - 4664.75 e₀ + 3763.64 e₀² if 0.65 < e₀ < 0.715
//        │ - 5149.66 + 29936.92 e₀ - 54087.36 e₀² + 31324.56 e₀³ otherwise
pub fn g520(e: f64) -> f64
    ensures { result ≡ g520_of e }
{
    if up_to_65(e) {
        cubic(e, -532.114, 3017.977, 5740.032, 3708.276)
    } else if e < 0.715 {
        quadratic(e, 1464.74, 4664.75, 3763.64)
    } else {
        cubic(e, -5149.66, 29936.92, 54087.36, 31324.56)
    }
}

// G₅₃₂ = │ - 853.666 + 4690.25 e₀ - 8624.77 e₀² + 5341.4 e₀³ if e₀ < 0.7
//        │ - 40023.88 + 170470.89 e₀ - 242699.48 e₀² + 115605.82 e₀³ otherwise
pub fn g532(e: f64) -> f64
    ensures { result ≡ g532_of e }
{
    if below_70(e) {
        cubic(e, -853.666, 4690.25, 8624.77, 5341.4)
    } else {
        cubic(e, -40023.88, 170470.89, 242699.48, 115605.82)
    }
}

// G₅₂₁ = │ - 822.71072 + 4568.6173 e₀ - 8491.4146 e₀² + 5337.524 e₀³ if e₀ < 0.7
//        │ - 51752.104 + 218913.95 e₀ - 309468.16 e₀² + 146349.42 e₀³ otherwise
pub fn g521(e: f64) -> f64
    ensures { result ≡ g521_of e }
{
    if below_70(e) {
        cubic(e, -822.71072, 4568.6173, 8491.4146, 5337.524)
    } else {
        cubic(e, -51752.104, 218913.95, 309468.16, 146349.42)
    }
}

// G₅₃₃ = │ - 919.2277 + 4988.61 e₀ - 9064.77 e₀² + 5542.21 e₀³ if e₀ < 0.7
//        │ - 37995.78 + 161616.52 e₀ - 229838.2 e₀² + 109377.94 e₀³ otherwise
pub fn g533(e: f64) -> f64
    ensures { result ≡ g533_of e }
{
    if below_70(e) {
        cubic(e, -919.2277, 4988.61, 9064.77, 5542.21)
    } else {
        cubic(e, -37995.78, 161616.52, 229838.2, 109377.94)
    }
}

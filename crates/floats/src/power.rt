// Small powers, multiplied as Rust's `powi` does. The library's `powi` is no plainer: its clause has a
// recursion over 32 digits and a product by 1.0.
ghost use Rattle.std.specs.Prelude.{◌≡◌};
ghost use Rattle.floats.specs.Power.{sq, cubed, 4th};

// x²
pub fn square(x: f64) -> f64
    ensures { result ≡ sq x }
{
    x * x
}

// x³
pub fn cube(x: f64) -> f64
    ensures { result ≡ cubed x }
{
    x * (x * x)
}

// x⁴
pub fn fourth(x: f64) -> f64
    ensures { result ≡ 4th x }
{
    let s = x * x;
    s * s
}

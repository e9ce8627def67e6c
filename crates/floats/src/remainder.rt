// The remainder of two floats, by whole numbers, and the remainder that is not negative: `%` on floats,
// and the library's `rem_euclid` with it, would call the C library's `fmod`.
ghost use Rattle.std.specs.Prelude.{◌≡◌, ◌-◌, ◌*◌, ◌/◌, ◌%◌, ◌^◌, ◌≤◌, ◌<◌};
ghost use Rattle.floats.specs.Rounded.{◌rem◌};
ghost use Rattle.floats.specs.Remainder.{rem_euclid, sig_of, units_of};

use crate::finite::magnitude;

// The digits of a pattern with no sign bit.
fn significand(p: u64) -> u64
    ensures is { result ≡ sig_of p }
    ensures few { result < 2 ^ 53 }
{
    if p < 0x10_0000_0000_0000 {
        p
    } else {
        0x10_0000_0000_0000 + p % 0x10_0000_0000_0000
    }
}

// How far they stand to the left of the smallest float's.
fn shift_of(p: u64) -> u64
    ensures { result ≡ p / 2 ^ 52 - 1 }
{
    (p / 0x10_0000_0000_0000).saturating_sub(1)
}

// sig * 2^shift % by, 11 digits of the shift at a time. A `for` over shift / 11 takes 1 ns of 35 more where
// the shift is long (measured).
fn wrapped(sig: u64, shift: u64, by: u64) -> u64
    requires { (0 < by) × (by < 2 ^ 53) }
    ensures { result ≡ sig * 2 ^ shift % by }
{
    let mut r = sig % by;
    let mut left = shift;
    while left >= 11 {
        r = (r << 11) % by;
        left -= 11;
    }
    (r << left) % by
}

// The pattern of sig * 2^shift units of 2^-1074.
fn packed(sig: u64, shift: u64) -> u64
    requires { (sig < 2 ^ 53) × (shift ≤ 2045) }
    ensures is { units_of result ≡ sig * 2 ^ shift }
    ensures finite { result < 2047 * 2 ^ 52 }
{
    if sig == 0 {
        return 0;
    }
    let room = (sig.leading_zeros() - 11) as u64;
    let up = room.min(shift);
    (shift - up) * 0x10_0000_0000_0000 + (sig << up)
}

// The pattern of the remainder of two patterns with no sign bit.
fn rest(a: u64, b: u64) -> u64
    requires { (a < 2047 * 2 ^ 52) × (0 < b) × (b < 2047 * 2 ^ 52) }
    ensures is { units_of result ≡ units_of a % units_of b }
    ensures finite { result < 2047 * 2 ^ 52 }
{
    let from = shift_of(a);
    let to = shift_of(b);
    if from < to {
        return a;
    }
    packed(wrapped(significand(a), from - to, significand(b)), to)
}

// x % m, as Rust's `%` has it.
pub fn rem(x: f64, m: f64) -> f64
    ensures { result ≡ x rem m }
{
    if x.is_nan() {
        return x;
    }
    if m.is_nan() {
        return m;
    }
    let bits = x.to_bits();
    let a = bits % 0x8000_0000_0000_0000;
    let b = m.to_bits() % 0x8000_0000_0000_0000;
    if a >= 0x7ff0_0000_0000_0000 {
        return x - x;
    }
    if b >= 0x7ff0_0000_0000_0000 {
        return x;
    }
    if b == 0 {
        return m / m;
    }
    f64::from_bits(bits - a + rest(a, b))
}

// x % m, and that plus |m| where it is negative: Rust's `rem_euclid`.
pub fn rem_euclid(x: f64, m: f64) -> f64
    ensures { result ≡ rem_euclid x m }
{
    let r = rem(x, m);
    let up = r + magnitude(m);
    if r < 0.0 { up } else { r }
}

// Little-endian numbers of a slice of bytes. A reader for each width, since the library has `from_le_bytes` for each type and no
// trait of them; one writer, which takes the width as a parameter. Two and four bytes are read by their places, and not by
// `first_chunk().unwrap()`: that tests the length at each number, and a search among 128 entries takes twice the time.
ghost use Rattle.std.specs.Prelude.{◌≡◌, ◌+◌, ◌≤◌, length, drop};
ghost use Rattle.contents.specs.LittleEndian.{le, le_bytes, word_at};
ghost use Rattle.contents.specs.Laid.{laid, laid_inside};

// The number of two bytes at `at`.
pub(crate) fn u16_at(s: &[u8], at: usize) -> u16
    requires { at + 2 ≤ length s.now }
    ensures { result ≡ le 2 (drop at s.now) }
{
    u16::from_le_bytes([s[at], s[at + 1]])
}

// The number of four bytes at `at`.
pub(crate) fn u32_at(s: &[u8], at: usize) -> u32
    requires { at + 4 ≤ length s.now }
    ensures { result ≡ le 4 (drop at s.now) }
{
    u32::from_le_bytes([s[at], s[at + 1], s[at + 2], s[at + 3]])
}

// The number of eight bytes at `at`, or 0 where they are not all there.
#[tactic(auto, unfolding(crate::specs::LittleEndian::word_at))]
pub fn u64_at(s: &[u8], at: usize) -> u64
    ensures { result ≡ word_at at s.now }
{
    if s.len() < at {
        return 0;
    }
    match s[at..].first_chunk() {
        Some(bytes) => u64::from_le_bytes(*bytes),
        None => 0,
    }
}

// Writes the N lowest bytes of x at `at`.
#[tactic(auto, using(crate::proofs::Le::to_le))]
pub(crate) fn put_number<const N: usize>(out: &mut [u8], at: usize, x: u64)
    requires { (N ≤ 8) × (at + N ≤ length out.old) }
    ensures { out.new ≡ laid at (le_bytes N x) out.old }
{
    put_bytes(out, at, &x.to_le_bytes()[..N]);
}

// Writes the eight bytes of x at `at`, or nothing where there is no room for all of them.
pub fn put_u64(out: &mut [u8], at: usize, x: u64)
    ensures { out.new ≡ laid_inside at (le_bytes 8 x) out.old }
{
    if at <= out.len() && 8 <= out.len() - at {
        put_number::<8>(out, at, x);
    }
}

// Writes all of `src` at `at`. (One by one: `copy_from_slice` calls `memmove`, which a host of the C library need not have.)
pub(crate) fn put_bytes(out: &mut [u8], at: usize, src: &[u8])
    requires { at + length src.now ≤ length out.old }
    ensures { out.new ≡ laid at src.now out.old }
{
    for (i, byte) in src.iter().enumerate() {
        out[at + i] = *byte;
    }
}

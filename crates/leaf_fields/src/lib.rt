// Bytes: little-endian numbers of any width, copies, and runs of zeros. What the block, the area and later the frames are made of.
#![tactic(auto)]

ghost use Rattle.std.specs.Prelude.{◌≡◌, ℕ, ◌+◌, ◌≤◌, ◌<◌, ◌^◌, length, replicate};
ghost use Rattle.std.proofs.Common.{lit≤};
ghost use Rattle.std.proofs.lemmas.List.Edits.{sets};
ghost use Rattle.leaf_fields.specs.Fields.{from_le, to_le, part, all_zero, same};

// The number in the n bytes at `at`, the lowest first. No `from_le_bytes`, which has one width, a type's: n is any, up to 8.
pub fn get(s: &[u8], at: usize, n: usize) -> u64
    requires { (n ≤ 8) × (at + n ≤ length s.now) }
    ensures { (result ≡ from_le (part s.now at n)) × (result < 256 ^ n) }
{
    // by the bytes' numbers: the invariant is the number in the bytes from i on, and over an iterator it would have to say which are
    // left of it
    let mut x: u64 = 0;
    for i in (0..n).rev() {
        x = x * 256 + s[at + i] as u64;
    }
    x
}

// The n lowest bytes of x, stored at `at`. No `to_le_bytes`, for the same reason.
pub fn put(d: &mut [u8], at: usize, n: usize, x: u64)
    requires { at + n ≤ length d.old }
    ensures { d.new ≡ sets d.old at (to_le n x) }
{
    // by the bytes' numbers, as in `get`
    let mut rest = x;
    for i in 0..n {
        d[at + i] = (rest % 256) as u8;
        rest /= 256;
    }
}

// A number of one of 01's widths: an instance a type, for the one `read` and the one `write`.
pub trait Number: Sized {
    ghost WIDTH: { ℕ };

    ghost value: { Self → ℕ };

    ghost laws: { WIDTH ≤ 8 };

    // In bytes.
    const WIDTH: usize;

    // The number that x is, where it has no more digits than the width.
    fn narrow(x: u64) -> Self
        requires { x < 256 ^ WIDTH }
        ensures { value result ≡ x };

    fn wide(self) -> u64
        ensures { result ≡ value self };
}

impl Number for u16 {
    ghost WIDTH = { 2 };

    ghost value = { λ x. x };

    ghost laws = { lit≤ tt };

    const WIDTH: usize = 2;

    fn narrow(x: u64) -> u16 {
        x as u16
    }

    fn wide(self) -> u64 {
        u64::from(self)
    }
}

impl Number for u32 {
    ghost WIDTH = { 4 };

    ghost value = { λ x. x };

    ghost laws = { lit≤ tt };

    const WIDTH: usize = 4;

    fn narrow(x: u64) -> u32 {
        x as u32
    }

    fn wide(self) -> u64 {
        u64::from(self)
    }
}

impl Number for u64 {
    ghost WIDTH = { 8 };

    ghost value = { λ x. x };

    ghost laws = { lit≤ tt };

    const WIDTH: usize = 8;

    fn narrow(x: u64) -> u64 {
        x
    }

    fn wide(self) -> u64 {
        self
    }
}

// The number that stands at `at`.
pub fn read<T: Number>(s: &[u8], at: usize) -> T
    requires { at + T.WIDTH ≤ length s.now }
    ensures { T.value result ≡ from_le (part s.now at T.WIDTH) }
{
    T::narrow(get(s, at, T::WIDTH))
}

// A number, stored at `at`.
pub fn write<T: Number>(d: &mut [u8], at: usize, x: T)
    requires { at + T.WIDTH ≤ length d.old }
    ensures { d.new ≡ sets d.old at (to_le T.WIDTH (T.value x)) }
{
    put(d, at, T::WIDTH, x.wide())
}

// All of s, stored at `at`. By the bytes' numbers, and no `copy_from_slice`: that is a call of the C library's `memmove`, which the archive
// for C would then need from outside.
pub fn copy(d: &mut [u8], at: usize, s: &[u8])
    requires { at + length s.now ≤ length d.old }
    ensures { d.new ≡ sets d.old at s.now }
{
    for i in 0..s.len() {
        d[at + i] = s[i];
    }
}

// Zeros throughout.
pub fn clear(d: &mut [u8])
    ensures { d.new ≡ replicate (length d.old) 0 }
{
    d.fill(0);
}

// Whether every byte is zero.
pub fn zeros(s: &[u8]) -> bool
    ensures { result ≡ all_zero s.now }
{
    s.iter().all(|b| *b == 0)
}

// Whether two rows have the same bytes: `==`, as the definitions say it, by recursion.
pub fn same(a: &[u8], b: &[u8]) -> bool
    ensures { result ≡ same a.now b.now }
{
    a == b
}

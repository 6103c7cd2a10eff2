// Text, numbers and bytes, put one behind the other into a lent buffer, or into an `Output`, which has its buffer. What doesn't fit is left
// out. Functions and methods both: the functions are public, for a caller with a buffer of its own, and what they promise of it (`Put`)
// stays; a method is a line over one. No `write!` into either: it answers a Result, and the library tells the bytes after an Ok alone
// (`OnOk` of `fmt::Write`), where these tell them always.
#![tactic(auto, using(crate::specs::LentLaws::put_in))]

ghost use Rattle.std.specs.Prelude.{◌≡◌, [], ◌∷◌, ◌-◌, length};
ghost use Rattle.script_words.specs.Written.{put, hex_digit, hex_of, decimal};
ghost use Rattle.script_words.specs.LentLaws.{Put};

use std::marker::Model;

// Put into a lent buffer from a place on; the place behind, which stays within the buffer. So the next three.
pub fn put_text(out: &mut [u8], at: usize, text: &[u8]) -> usize
    ensures { Put out.old at text.now result out.new }
{
    let at = at.min(out.len());
    let n = text.len().min(out.len() - at);
    leaf_fields::copy(out, at, &text[..n]);
    at + n
}

pub fn put_byte(out: &mut [u8], at: usize, b: u8) -> usize
    ensures { Put out.old at (b ∷ []) result out.new }
{
    if out.len() <= at {
        return out.len();
    }
    out[at] = b;
    at + 1
}

// In decimal, with no zeros in front.
pub fn put_number(out: &mut [u8], at: usize, n: u64) -> usize
    ensures { Put out.old at (decimal n) result out.new }
{
    // at most twenty digits, the last one first, and then all of them as one text
    let mut digits = [b'0'; 20];
    let mut rest = n;
    // a `while`, since behind it `i` is where the text begins
    let mut i = 20;
    while 0 < i {
        i -= 1;
        digits[i] = b'0' + (rest % 10) as u8;
        if rest < 10 {
            return put_text(out, at, &digits[i..]);
        }
        rest /= 10;
    }
    put_text(out, at, &digits[i..])
}

// Two hex digits for each byte.
pub fn put_hex(out: &mut [u8], at: usize, bytes: &[u8]) -> usize
    ensures { Put out.old at (hex_of bytes.now) result out.new }
{
    // a `for` and no `fold`: what a closure changes behind a borrow, as `out` would be, is not told
    let mut end = at;
    for b in bytes {
        let next = put_byte(out, end, hex_digit(b / 16));
        end = put_byte(out, next, hex_digit(b % 16));
    }
    end.min(out.len())
}

// No `char::from_digit`, whose answer is an Option of a char, and would have to be made a byte again.
fn hex_digit(n: u8) -> u8
    ensures { result ≡ hex_digit n }
{
    match n {
        0..=9 => b'0' + n,
        10..=15 => b'a' - 10 + n,
        _ => b'?',
    }
}

// At most `N` bytes that are put out: fixed memory, so an array with a count. Both are public: in another crate too a function over a lent
// buffer is one over an `Output` in a line (script_answer/src/output.rt), and who writes them proves that the count is within the array.
#[derive(Drop)]
pub struct Output<const N: usize> {
    pub bytes: [u8; N],
    pub len: usize,
}

// A clause sees the bytes that were put.
impl<const N: usize> Model for Output<N> {
    ghost use Rattle.std.specs.Prelude.{List, ℕ, ◌≤◌, take};

    ghost Value = { List ℕ };

    ghost view = { λ o. take o.len o.bytes };

    ghost invariant = { λ o. o.len ≤ N };
}

impl<const N: usize> Output<N> {
    pub fn new() -> Self
        ensures { result ≡ [] }
    {
        Output {
            bytes: [0; N],
            len: 0,
        }
    }

    pub fn as_slice(&self) -> &[u8]
        ensures { result.now ≡ self.now }
    {
        &self.bytes[..self.len]
    }

    // How many bytes still fit.
    pub fn room(&self) -> usize
        ensures { result ≡ N - length self.now }
    {
        N - self.len
    }

    pub fn clear(&mut self)
        ensures { self.new ≡ [] }
    {
        self.len = 0;
    }

    pub fn put_text(&mut self, text: &[u8])
        ensures { self.new ≡ put N self.old text.now }
    {
        self.len = put_text(&mut self.bytes, self.len, text);
    }

    pub fn put_byte(&mut self, b: u8)
        ensures { self.new ≡ put N self.old (b ∷ []) }
    {
        self.len = put_byte(&mut self.bytes, self.len, b);
    }

    // In decimal, with no zeros in front.
    pub fn put_number(&mut self, n: u64)
        ensures { self.new ≡ put N self.old (decimal n) }
    {
        self.len = put_number(&mut self.bytes, self.len, n);
    }

    // Two hex digits for each byte.
    pub fn put_hex(&mut self, bytes: &[u8])
        ensures { self.new ≡ put N self.old (hex_of bytes.now) }
    {
        self.len = put_hex(&mut self.bytes, self.len, bytes);
    }
}

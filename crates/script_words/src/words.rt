// The words of a line, which single spaces part.
ghost use Rattle.std.specs.Prelude.{◌≡◌, [], ℕ, ◌+◌, ◌≤◌, ◌<◌, length, drop, MatchOption};
ghost use Rattle.script_words.specs.Text.{up_to};
ghost use Rattle.script_words.specs.Split.{word_at, Split};

// The most words that a line has: `FROM ProposeRes BALLOT BALLOT OPT Err ERROR BALLOT`.
pub const WORDS_MOST: usize = 8;

// The first `n` are a line's words, and the others are empty: fixed memory, so an array with a count.
#[derive(Clone, Copy, Default)]
pub struct Words<'a> {
    pub n: usize,
    pub words: [&'a [u8]; WORDS_MOST],
}

impl<'a> Words<'a> {
    // Word i of a line; the empty word where it has none.
    pub fn word(&self, i: usize) -> &'a [u8]
        ensures { result.now ≡ word_at self.now i }
    {
        self.words.get(i).copied().unwrap_or(b"")
    }
}

// The first place of a byte at `from` or behind it.
pub fn place_of(s: &[u8], from: usize, b: u8) -> Option<usize>
    requires { from ≤ length s.now }
    ensures { MatchOption result (from + up_to b (drop from s.now) ≡ length s.now) (λ i. (i ≡ from + up_to b (drop from s.now)) × (from ≤ i) × (i < length s.now)) }
{
    let i = s[from..].iter().position(|x| *x == b)?;
    Some(from + i)
}

// The words of a line. None where a word is empty, as in a line with two spaces in a row, or where there are more than eight.
pub fn split(line: &[u8]) -> Words<'_>
    ensures { Split line.now result }
{
    let mut words: [&[u8]; WORDS_MOST] = [b""; WORDS_MOST];
    // `n` is part of the answer, which an index of `enumerate` or `zip` would not be behind the loop
    let mut n = 0;
    for word in line.split(|b| *b == b' ') {
        if word.is_empty() || n == WORDS_MOST {
            return Words::default();
        }
        words[n] = word;
        n += 1;
    }
    Words { n, words }
}

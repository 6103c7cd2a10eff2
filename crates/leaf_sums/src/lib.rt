// The two sums that close a register block, and later a frame, formed in one walk.
#![tactic(auto)]

ghost use Rattle.std.specs.Prelude.{◌≡◌, ◌≤◌, length};
ghost use Rattle.leaf_sums.specs.Sums.{plain_sum, placed_sum};

#[derive(Clone, Copy, PartialEq, Eq)]
pub struct Sums {
    pub plain: u32,
    pub placed: u32,
}

// The sum of the bytes, and the sum of (i+1) times byte i. Up to 4,096 bytes both fit 32 bits.
pub fn form(s: &[u8]) -> Sums
    requires { length s.now ≤ 4096 }
    ensures { (result.plain ≡ plain_sum s.now) × (result.placed ≡ placed_sum 0 s.now) }
{
    let mut plain: u32 = 0;
    let mut placed: u32 = 0;
    for (i, b) in s.iter().enumerate() {
        plain += *b as u32;
        placed += (i as u32 + 1) * *b as u32;
    }
    Sums { plain, placed }
}

// A set of numbers from 0 to 31: one bit for each number.
ghost use Rattle.std.specs.Prelude.{◌≡◌, ◌^◌, ◌<◌, count_ones};
ghost use Rattle.bits.specs.Bits.{bit};

use crate::has_bit;

#[derive(Clone, Copy, Debug, PartialEq, Eq)]
pub struct NumberSet {
    pub(crate) bits: u32,
    ghost ok: { bits < 2 ^ 32 },
}

impl NumberSet {
    // The set that holds nothing.
    pub fn empty() -> NumberSet
        ensures { result.bits ≡ 0 }
    {
        NumberSet { bits: 0 }
    }

    // Whether it holds number i.
    pub fn holds(&self, i: usize) -> bool
        ensures { result ≡ bit self.now.bits i }
    {
        has_bit(u64::from(self.bits), i)
    }

    // How many numbers it holds.
    pub fn size(&self) -> u32
        ensures { result ≡ count_ones self.now.bits }
    {
        self.bits.count_ones()
    }
}

// The numbers whose bits are set in a word.
impl From<u32> for NumberSet {
    ghost from_gives = { λ word set. set.bits ≡ word };

    fn from(word: u32) -> NumberSet {
        NumberSet { bits: word }
    }
}

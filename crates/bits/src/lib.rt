// Words as sets of bits.
#![tactic(auto)]

ghost use Rattle.std.specs.Prelude.{◌≡◌, ℕ, ◌<◌, true, false, MatchOption, not, ◌&&◌, ◌||◌, ◌==◌, nat_lt};
ghost use Rattle.bits.specs.Bits.{bit};

pub mod set;
pub mod union;

// Whether bit i is set; a word has 64 bits.
pub fn has_bit(word: u64, i: usize) -> bool
    ensures { result ≡ bit word i }
{
    if i >= 64 {
        return false;
    }
    (word >> i) % 2 == 1
}

// The word with bit i set too, where i is below 64.
pub fn with_bit(word: u64, i: usize) -> u64
    ensures { (j : ℕ) → bit result j ≡ (bit word j || (nat_lt i 64 && j == i)) }
{
    if i >= 64 {
        return word;
    }
    word | (1 << i)
}

// The word with bit i clear.
pub fn without_bit(word: u64, i: usize) -> u64
    ensures { (j : ℕ) → bit result j ≡ (bit word j && not (j == i)) }
{
    if i >= 64 {
        return word;
    }
    word & !(1 << i)
}

// The place of the lowest bit that is set; none where none is.
pub fn lowest_bit(word: u64) -> Option<usize>
    ensures { MatchOption result ((j : ℕ) → bit word j ≡ false) (λ i. (i < 64) × (bit word i ≡ true) × ((j : ℕ) → j < i → bit word j ≡ false)) }
{
    if word == 0 {
        return None;
    }
    Some(word.trailing_zeros() as usize)
}

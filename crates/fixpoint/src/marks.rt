// A set of numbers from 0 to 127: one bit for each, in two words.
ghost use Rattle.std.specs.Prelude.{◌≡◌, ℕ, ◌<◌, true, false, MatchOption, ◌&&◌, ◌||◌, ◌==◌, nat_lt};
ghost use Rattle.fixpoint.specs.Marks.{marked};
ghost use Rattle.fixpoint.specs.Worklist.{without_number};

use bits::{has_bit, lowest_bit, with_bit, without_bit};

#[derive(Clone, Copy, Debug, PartialEq, Eq)]
pub struct Marks {
    pub low: u64,
    pub high: u64,
}

// Two words are a rule of the project. Each has an arm of its own: to pick the word and then put it back would be no shorter.
impl Marks {
    // The empty set.
    pub fn new() -> Marks
        ensures { (i : ℕ) → marked result i ≡ false }
    {
        Marks { low: 0, high: 0 }
    }

    // Whether i is marked.
    pub fn has(self, i: usize) -> bool
        ensures { result ≡ marked self i }
    {
        if i < 64 {
            has_bit(self.low, i)
        } else {
            has_bit(self.high, i - 64)
        }
    }

    // The set with i too, where i is below 128.
    pub fn with(self, i: usize) -> Marks
        ensures { (j : ℕ) → marked result j ≡ (marked self j || (j == i && nat_lt i 128)) }
    {
        if i < 64 {
            Marks {
                low: with_bit(self.low, i),
                ..self
            }
        } else {
            Marks {
                high: with_bit(self.high, i - 64),
                ..self
            }
        }
    }

    // The set without i.
    pub fn without(self, i: usize) -> Marks
        ensures { (j : ℕ) → marked result j ≡ without_number i (marked self) j }
    {
        if i < 64 {
            Marks {
                low: without_bit(self.low, i),
                ..self
            }
        } else {
            Marks {
                high: without_bit(self.high, i - 64),
                ..self
            }
        }
    }

    // The smallest number of the set.
    pub fn smallest(self) -> Option<usize>
        ensures { MatchOption result ((j : ℕ) → marked self j ≡ false) (λ i. (marked self i ≡ true) × ((j : ℕ) → j < i → marked self j ≡ false)) }
    {
        if let Some(i) = lowest_bit(self.low) {
            return Some(i);
        }
        Some(64 + lowest_bit(self.high)?)
    }
}

// Sets of one number, and the union of sets.
ghost use Rattle.std.specs.Prelude.{◌≡◌};
ghost use Rattle.bits.specs.Set.{only, union};

use crate::set::NumberSet;
use std::ops::{BitOr, BitOrAssign};

impl NumberSet {
    // Number i alone; a number above 31 has no place.
    pub fn only(i: usize) -> NumberSet
        ensures { result ≡ only i }
    {
        if i >= 32 {
            return NumberSet::empty();
        }
        NumberSet { bits: 1 << i }
    }
}

// The numbers of either set.
impl BitOr for NumberSet {
    type Output = NumberSet;

    ghost bitor_gives = { λ a b r. r ≡ union a b };

    fn bitor(self, other: NumberSet) -> NumberSet {
        NumberSet {
            bits: self.bits | other.bits,
        }
    }
}

impl BitOrAssign for NumberSet {
    ghost bitor_assign_gives = { λ a b after. after ≡ union a b };

    fn bitor_assign(&mut self, other: NumberSet) {
        *self = *self | other;
    }
}

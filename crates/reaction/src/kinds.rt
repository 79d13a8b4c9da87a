// The two combining kinds of a chart.
#![tactic(auto, using(crate::specs::Totals::same_total))]

ghost use Rattle.std.specs.Prelude.{◌≡◌};
ghost use Rattle.reaction.specs.Kinds.{largest, sum};
ghost use Rattle.std.proofs.Common.{arith, rules};
ghost use Rattle.reaction.specs.Totals.{same_total};

use crate::combine::Combining;
use crate::total::Total;

// Adds amounts up and stops at the largest number of 32 bits.
#[derive(Clone, Copy)]
pub struct Sum;

// Keeps the largest amount.
#[derive(Clone, Copy)]
pub struct Largest;

impl Combining for Sum {
    type Value = Total;

    ghost combination = { λ _. sum };

    ghost lawful = { λ k.
        record {
          associative = λ a b c. same_total _ _ (omega arith);
          commutative = λ a b. same_total _ _ (omega arith);
          neutral_left = λ a. same_total _ _ (let h = a.fits in omega arith);
        } };

    fn neutral(&self) -> Total {
        Total { value: 0 }
    }

    fn step(&self, amount: u32) -> Total {
        Total { value: amount }
    }

    fn together(&self, a: Total, b: Total) -> Total {
        Total {
            value: a.value.saturating_add(b.value),
        }
    }
}

impl Combining for Largest {
    type Value = u32;

    ghost combination = { λ _. largest };

    ghost lawful = { Prim.search rules };

    fn neutral(&self) -> u32 {
        u32::MIN
    }

    fn step(&self, amount: u32) -> u32 {
        amount
    }

    fn together(&self, a: u32, b: u32) -> u32 {
        a.max(b)
    }
}

// How the amounts of one signal become one value, whatever their order.
ghost use Rattle.std.specs.Prelude.{◌≡◌, ℕ, List};
ghost use Rattle.std.specs.List.Sorted.{IsPermutation};
ghost use Rattle.reaction.specs.Combine.{Combination, Lawful, combined};

// A combining kind, with its own type of value.
pub trait Combining {
    type Value: Copy;

    // What this kind stands for: the neutral value, the step from an amount to a value, the operation.
    ghost combination: { Self → Combination Self.Value };

    fn neutral(&self) -> Self::Value
        ensures { result ≡ (combination self.now).neutral };

    // The value of one amount.
    fn step(&self, amount: u32) -> Self::Value
        ensures { result ≡ (combination self.now).step amount };

    // The value of two together.
    fn together(&self, a: Self::Value, b: Self::Value) -> Self::Value
        ensures { result ≡ (combination self.now).together a b };

    // The operation is associative and commutative, and the neutral value changes nothing.
    ghost lawful: { (k : Self) → Lawful (combination k) };
}

// The value of all amounts; any order of them gives the same. That it is one loop over the slice is a rule of the project.
pub fn combine<K: Combining>(kind: &K, amounts: &[u32]) -> K::Value
    ensures value { result ≡ combined (K.combination kind.now) amounts.now }
    ensures any_order { (others : List ℕ) → IsPermutation amounts.now others → result ≡ combined (K.combination kind.now) others }
{
    let mut value = kind.neutral();
    for amount in amounts {
        value = kind.together(value, kind.step(*amount));
    }
    value
}

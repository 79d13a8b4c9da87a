// A chain of equations over truth values: the first is true, and each other is the unknown before it.
ghost use Rattle.std.specs.Prelude.{◌≡◌, ◌≤◌};
ghost use Rattle.limits.specs.Chain.{chain_equations};
ghost use Rattle.limits.specs.ChainLaws.{chain_laws};

use fixpoint::system::System;

#[derive(Clone, Copy)]
pub struct Chain {
    length: usize,
    ghost few: { length ≤ 128 },
}

impl Chain {
    // A chain of that many equations.
    pub fn new(length: usize) -> Chain
        requires { length ≤ 128 }
        ensures { result.length ≡ length }
    {
        Chain { length }
    }
}

impl System for Chain {
    type Element = bool;

    ghost equations = { λ c. chain_equations c.length };

    ghost laws = { λ c. chain_laws c.length c.few };

    fn count(&self) -> usize {
        self.length
    }

    fn bottom(&self) -> bool {
        false
    }

    fn join(&self, a: bool, b: bool) -> bool {
        a | b
    }

    fn evaluate(&self, i: usize, area: &[bool]) -> bool {
        if i >= self.length || area.len() < self.length {
            return false;
        }
        i == 0 || area[i - 1]
    }

    fn same(&self, a: bool, b: bool) -> bool {
        a == b
    }

    fn reads(&self, i: usize, j: usize) -> bool {
        i < self.length && 0 < i && j == i - 1
    }
}

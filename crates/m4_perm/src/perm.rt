//! A permutation that owns the list of its numbers.

ghost use Rattle.std.specs.Prelude.{◌≡◌, ℕ, ◌<◌, ◌≤◌, ◌^◌, List, length, swap, slice_index, IfOk};
ghost use Rattle.std.specs.List.{range_with_len};
ghost use Rattle.m4_model.specs.Shapes.{swaps};
ghost use Rattle.m4_model.specs.Factors.{IsOrder};
ghost use Rattle.m4_perm.specs.Perm.{AreSwaps, IsInverseOrder};

use crate::list::{exchange_all, identity_list, inverse_list};
use m4_model::NoMemory;
use std::alloc::Global;
use std::marker::Model;

/// A permutation of the numbers below `n`, as the list of them in their new order.
#[derive(Debug, Drop)]
pub struct Perm {
    list: Vec<u32>,
}

impl Model for Perm {
    ghost use Rattle.std.specs.Prelude.{List, ℕ};
    ghost use Rattle.m4_perm.specs.Perm.{IsPermutation};

    ghost Value = { List ℕ };

    ghost view = { λ p. p.list.items };

    ghost invariant = { λ p. IsPermutation p.list.items };
}

impl Perm {
    /// The numbers below `n` as they are.
    pub fn identity(alloc: Global, n: u32) -> Result<Perm, NoMemory>
        ensures { IfOk result (λ p. p ≡ range_with_len 0 n) }
    {
        Ok(Perm {
            list: identity_list(alloc, n)?,
        })
    }

    /// The numbers below `n` after entries `i` and `exchanges[i]` are exchanged, for `i` = 0, 1, 2 and so on in turn.
    ///
    /// This is how LAPACK's and M4RI's pivot vectors tell a permutation.
    pub fn from_swaps(alloc: Global, n: u32, exchanges: &[u32]) -> Result<Perm, NoMemory>
        requires { AreSwaps n exchanges.now }
        ensures list { IfOk result (λ p. p ≡ swaps n exchanges.now) }
        ensures count { IfOk result (λ p. length p ≡ n) }
    {
        let list = exchange_all(identity_list(alloc, n)?, exchanges);
        Ok(Perm { list })
    }

    /// Exchanges entries `i` and `j`.
    pub fn swap(&mut self, i: u32, j: u32)
        requires first { i < length self.old }
        requires second { j < length self.old }
        ensures { self.new ≡ swap self.old i j }
    {
        self.list.swap(i as usize, j as usize);
    }

    /// The list: each number below its length stands in it once.
    pub fn as_list(&self) -> &[u32]
        ensures list { result.now ≡ self.now }
        ensures order { IsOrder (length self.now) self.now }
        ensures short { length self.now < 2 ^ 32 }
    {
        &self.list
    }

    /// The permutation that undoes this one.
    pub fn invert(&self, alloc: Global) -> Result<Perm, NoMemory>
        ensures { IfOk result (IsInverseOrder self.now) }
    {
        Ok(Perm {
            list: inverse_list(alloc, &self.list)?,
        })
    }
}

#[cfg(test)]
mod tests {
    use super::*;
    use std::test::Fail;

    #[test]
    fn orders(rt: HostRuntime) -> Result<(), Fail> {
        let alloc = rt.alloc();
        let same = Perm::identity(alloc, 3)?;
        assert_eq!(rt; same.as_list(), [0, 1, 2].as_slice());
        let mut order = Perm::from_swaps(alloc, 3, &[2, 2, 2])?;
        assert_eq!(rt; order.as_list(), [2, 0, 1].as_slice());
        assert_eq!(rt; order.invert(alloc)?.as_list(), [1, 2, 0].as_slice());
        order.swap(0, 2);
        assert_eq!(rt; order.as_list(), [1, 0, 2].as_slice());
        assert_eq!(rt; Perm::identity(alloc, 0)?.as_list().len(), 0);
        Ok(())
    }
}

//! Lists of numbers in some order.

ghost use Rattle.std.specs.Prelude.{◌≡◌, ℕ, ◌<◌, ◌≤◌, ◌^◌, length, IfOk};
ghost use Rattle.std.specs.List.{range_with_len};
ghost use Rattle.m4_model.specs.Shapes.{exchanged};
ghost use Rattle.m4_model.specs.Factors.{IsOrder};
ghost use Rattle.m4_perm.specs.Perm.{AreSwaps, IsInverseOrder};

use std::alloc::{AllocError, Global};

/// The numbers below `n`.
pub(crate) fn identity_list(alloc: Global, n: u32) -> Result<Vec<u32>, AllocError>
    ensures { IfOk result (λ list. list.items ≡ range_with_len 0 n) }
{
    let mut list = Vec::with_capacity(alloc, n as usize)?;
    for number in 0..n {
        list.push(number)?;
    }
    Ok(list)
}

/// The list after entries `i` and `exchanges[i]` are exchanged, for `i` = 0, 1, 2 and so on in turn.
#[tactic(auto, using(crate::proofs::OrderLemmas::exchange_step, crate::proofs::OrderLemmas::exchange_done))]
pub(crate) fn exchange_all(mut list: Vec<u32>, exchanges: &[u32]) -> Vec<u32>
    requires { AreSwaps (length list.items) exchanges.now }
    ensures { result.items ≡ exchanged 0 exchanges.now list.items }
{
    for (i, other) in exchanges.iter().enumerate() {
        list.swap(i, *other as usize);
    }
    list
}

/// The places of the numbers in the list.
pub(crate) fn inverse_list(alloc: Global, list: &[u32]) -> Result<Vec<u32>, AllocError>
    requires order { IsOrder (length list.now) list.now }
    requires short { length list.now < 2 ^ 32 }
    ensures { IfOk result (λ inverse. IsInverseOrder list.now inverse.items) }
{
    let mut inverse = vec![in alloc; 0u32; list.len()]?;
    put_places(&mut inverse, list);
    Ok(inverse)
}

/// Puts each number's place in the list at the number.
fn put_places(places: &mut [u32], list: &[u32])
    requires order { IsOrder (length list.now) list.now }
    requires short { length list.now < 2 ^ 32 }
    requires room { length places.old ≡ length list.now }
    ensures { IsInverseOrder list.now places.new }
{
    for (place, number) in list.iter().enumerate() {
        places[*number as usize] = place as u32;
    }
}

//! The plain elimination of a matrix of at most 64 columns, whose rows are words side by side.

ghost use Rattle.std.specs.Prelude.{◌≡◌, ◌⊎◌, ℕ, ◌+◌, ◌<◌, ◌≤◌, length, take, slice_index, IfSome, IfNone};
ghost use Rattle.std.specs.Int.{bit_at};
ghost use Rattle.m4_model.specs.Matrix.{Matrix};
ghost use Rattle.m4_model.specs.Shapes.{swaps};
ghost use Rattle.m4_perm.specs.Perm.{AreSwaps};
ghost use Rattle.m4_ple.specs.Elimination.{IsEliminated};
ghost use Rattle.m4_ple.specs.Held.{HoldsPle};
ghost use Rattle.m4_ple.specs.Words.{word_matrix, cleared_bit, IsClearedTo};

use crate::plain::number;
use m4_mzd::MOST_SIDE;

/// Factors the matrix of so many columns, at most 64, that the words show, as P L E in their own place, and answers its rank
/// r. What is told of `p` and `q`, and where L and E stand, is as for `ple_plain`. It takes no memory and refuses nothing.
///
/// It is the elimination of a panel of one word of the columns: Albrecht, Bard and Pernet, "Efficient dense Gaussian
/// elimination over the field with two elements" (2011), section 3. A step is a pass over the words, with no branch in it.
pub fn ple_words(words: &mut [u64], cols: u32, p: &mut [u32], q: &mut [u32]) -> u32
    requires one_word { cols ≤ 64 }
    requires exchanges { length p.old ≡ length words.old }
    requires few { length words.old ≤ MOST_SIDE }
    requires pivots { (length q.old ≡ length words.old) ⊎ (cols ≤ length q.old) }
    ensures words { length words.new ≡ length words.old }
    ensures exchanges { AreSwaps (length words.old) p.new }
    ensures all { length p.new ≡ length p.old }
    ensures stay { (i : ℕ) → result ≤ i → i < length words.old → slice_index p.new i ≡ i }
    ensures room { length q.new ≡ length q.old }
    ensures rank { result ≤ length q.new }
    ensures factors { HoldsPle (word_matrix cols words.old) (swaps (length words.old) p.new) (take result q.new) (word_matrix cols words.new) }
{
    number(p);
    let mut rank = 0;
    for c in 0..cols {
        rank = eliminate_bit(words, p, q, rank, c);
    }
    rank
}

/// Looks for a pivot in column `c`, from row `rank` on, and clears the column below it. Answers the new rank.
fn eliminate_bit(words: &mut [u64], p: &mut [u32], q: &mut [u32], rank: u32, c: u32) -> u32
    requires one_word { c < 64 }
    requires reached { rank ≤ c }
    requires exchanges { length p.old ≡ length words.old }
    requires few { length words.old ≤ MOST_SIDE }
    requires pivots { (length q.old ≡ length words.old) ⊎ (c < length q.old) }
    ensures words { length words.new ≡ length words.old }
    ensures exchanges { length p.new ≡ length p.old }
    ensures pivots { length q.new ≡ length q.old }
    ensures eliminated { (cols : ℕ) (A : Matrix) → cols ≤ 64 → c < cols → IsEliminated A p.old q.old rank c (word_matrix cols words.old)
        → IsEliminated A p.new q.new result (c + 1) (word_matrix cols words.new) }
{
    let Some(row) = find_one(words, rank, c) else {
        return rank;
    };
    words.swap(rank as usize, row as usize);
    p[rank as usize] = row;
    q[rank as usize] = c;
    clear_below(words, rank, c);
    rank + 1
}

/// The first row from `from` on that has a one in column `c`.
fn find_one(words: &[u64], from: u32, c: u32) -> Option<u32>
    requires one_word { c < 64 }
    requires few { length words.now ≤ MOST_SIDE }
    ensures behind { IfSome result (λ r. from ≤ r) }
    ensures in_rows { IfSome result (λ r. r < length words.now) }
    ensures one { IfSome result (λ r. bit_at (slice_index words.now r) c ≡ 1) }
    ensures none { IfNone result ((i : ℕ) → from ≤ i → i < length words.now → bit_at (slice_index words.now i) c ≡ 0) }
{
    for r in from..words.len() as u32 {
        if (words[r as usize] >> c) & 1 == 1 {
            return Some(r);
        }
    }
    None
}

/// Clears column `c` below row `r`, which has its pivot there, and keeps the factors in column `r`.
fn clear_below(words: &mut [u64], r: u32, c: u32)
    requires in_rows { r < length words.old }
    requires one_word { c < 64 }
    requires behind { r ≤ c }
    requires pivot { bit_at (slice_index words.old r) c ≡ 1 }
    ensures { IsClearedTo r c (length words.old) words.old words.new }
{
    let pivot = words[r as usize];
    for i in r as usize + 1..words.len() {
        words[i] = cleared_word(words[i], pivot, r, c);
    }
}

/// The word with the pivot's added to it where it has a one in column `c`, and then the factor in column `r`.
#[inline(always)]
fn cleared_word(word: u64, pivot: u64, r: u32, c: u32) -> u64
    requires one_word { c < 64 }
    requires behind { r ≤ c }
    requires pivot { bit_at pivot c ≡ 1 }
    ensures { (j : ℕ) → j < 64 → bit_at result j ≡ cleared_bit r c word pivot j }
{
    if (word >> c) & 1 == 0 {
        return word;
    }
    (word ^ (pivot >> c << c)) | 1 << r
}

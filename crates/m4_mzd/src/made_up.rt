//! Matrices of made-up digits, for tests.

ghost use Rattle.std.specs.Prelude.{◌≡◌, ◌^◌, ◌<◌, ◌≤◌, IfOk};

use crate::MOST_SIDE;
use crate::mzd::Mzd;
use crate::win_mut::WinMut;
use m4_bits::words_for;
use m4_model::NoMemory;
use std::alloc::Global;

/// A matrix of made-up digits, for tests: for one seed, not 0, and one shape always the same ones. They are numbers of
/// Marsaglia, Xorshift RNGs (2003), and mean nothing.
pub fn mixed(alloc: Global, rows: u32, cols: u32, seed: u64) -> Result<Mzd, NoMemory>
    requires few_rows { rows ≤ MOST_SIDE }
    requires few_cols { cols ≤ MOST_SIDE }
    ensures rows { IfOk result (λ m. m.rows ≡ rows) }
    ensures cols { IfOk result (λ m. m.cols ≡ cols) }
{
    let mut m = Mzd::zeros(alloc, rows, cols)?;
    let (mut whole, home) = m.all_mut();
    let mut word = seed;
    for r in 0..whole.rows() {
        word = mix_row(&mut whole, r, word);
    }
    m.put_all(whole, home);
    Ok(m)
}

// Writes made-up digits to a row, and answers the last of its numbers.
fn mix_row(whole: &mut WinMut, r: u32, seed: u64) -> u64
    requires { r < whole.old.rows }
    ensures { record whole.new { bits = whole.old.bits } ≡ whole.old }
{
    let mut word = seed;
    for w in 0..words_for(whole.cols()) {
        word ^= word << 13;
        word ^= word >> 7;
        word ^= word << 17;
        whole.set_word(r, w, word);
    }
    word
}

//! The generator's words, written to rows.

ghost use Rattle.std.specs.Prelude.{◌≡◌, ℕ, ◌+◌, ◌*◌, ◌<◌, map};
ghost use Rattle.std.specs.List.{range_with_len};
ghost use Rattle.m4_model.specs.Field.{gf2};
ghost use Rattle.m4_model.specs.Matrix.{matrix_of, with_row};
ghost use Rattle.m4_model.specs.Text.{words_per_row};
ghost use Rattle.m4_mzd.specs.Window.{content, showing};
ghost use Rattle.m4_model.specs.Generated.{word};
ghost use Rattle.m4_gen.specs.Source.{HasGiven, masked_bit};

use m4_bits::words_for;
use m4_mzd::WinMut;
use rand_core::Rng;
use rand_xoshiro::SplitMix64;

/// Writes the generator's words to the rows, one row after the other, each word under a mask.
pub(crate) fn fill(whole: &mut WinMut, mask: u64, source: &mut SplitMix64)
    ghost seed: { ℕ }
    requires { HasGiven seed 0 source.old }
    ensures { whole.new ≡ showing whole.old (matrix_of gf2 whole.old.rows whole.old.cols (masked_bit whole.old.cols mask seed)) }
{
    for r in 0..whole.rows() {
        fill_row(whole, r, mask, source);
    }
}

/// Writes the next words to row `r`, as many as it has, behind those of the rows before.
fn fill_row(whole: &mut WinMut, r: u32, mask: u64, source: &mut SplitMix64)
    ghost seed: { ℕ }
    requires in_rows { r < whole.old.rows }
    requires before { HasGiven seed (r * words_per_row whole.old.cols) source.old }
    ensures row { whole.new ≡ showing whole.old (with_row (content whole.old) r (map (masked_bit whole.old.cols mask seed r) (range_with_len 0 whole.old.cols))) }
    ensures behind { HasGiven seed ((r + 1) * words_per_row whole.old.cols) source.new }
{
    for w in 0..words_for(whole.cols()) {
        let word = next_word(source);
        whole.set_word(r, w, word & mask);
    }
}

/// The generator's next word.
#[inline]
fn next_word(source: &mut SplitMix64) -> u64
    ensures word { (seed k : ℕ) → HasGiven seed k source.old → result ≡ word seed k }
    ensures next { (seed k : ℕ) → HasGiven seed k source.old → HasGiven seed (k + 1) source.new }
{
    source.next_u64()
}

//! The parts of a triangle.

ghost use Rattle.std.specs.Prelude.{◌≡◌, ◌+◌, ◌*◌, ◌%◌, ◌<◌, ◌≤◌};
ghost use Rattle.m4_model.specs.Field.{width};
ghost use Rattle.m4_model.specs.Shapes.{cut};
ghost use Rattle.m4_mzd.specs.declared.TheConstants.{MOST_SIDE};
ghost use Rattle.m4_field.specs.Fields.{the_field};
ghost use Rattle.m4_mzed.specs.ESeen.{e_shown};

use m4_bits::words_for;
use m4_field::Field;
use m4_mzed::EWin;

/// The rows up to which a triangle over an extension field is solved row by row: from there on products pay.
const FEW_ROWS: u32 = 16;

/// Where a triangle of so many rows, or a matrix of so many columns, more than 64, is cut: at half of its words of 64 entries,
/// rounded down.
pub fn half(rows: u32) -> u32
    requires { 64 < rows }
    ensures some { 0 < result }
    ensures less { result < rows }
    ensures whole_words { result % 64 ≡ 0 }
    ensures not_before_half { rows ≤ 2 * result + 64 }
    ensures not_behind_half { 2 * result < rows + 64 }
{
    words_for(rows) / 2 * 64
}

/// The most rows of a triangle over this field that is solved row by row: over an extension field fewer than `cutoff`, but as
/// many as a word has elements.
pub fn most_by_rows(field: Field, cutoff: u32) -> u32
    requires { 64 ≤ cutoff }
    ensures { 64 ≤ result * width (the_field field) }
{
    if field.e() == 1 {
        cutoff
    } else {
        (64 / field.width()).max(FEW_ROWS)
    }
}

/// Where a triangle of so many rows, which take more than one word, is cut over this field: at half of the words that they take,
/// rounded down.
pub fn half_over(field: Field, rows: u32) -> u32
    requires more { 64 < rows * width (the_field field) }
    requires few_bits { rows * width (the_field field) ≤ MOST_SIDE }
    ensures some { 0 < result }
    ensures less { result < rows }
    ensures whole_words { result * width (the_field field) % 64 ≡ 0 }
    ensures not_before_half { rows * width (the_field field) ≤ 2 * (result * width (the_field field)) + 64 }
    ensures not_behind_half { 2 * (result * width (the_field field)) < rows * width (the_field field) + 64 }
{
    let width = field.width();
    words_for(rows * width) / 2 * (64 / width)
}

/// The parts of a square that is cut at row and column `k`: its first rows and columns, what is right of them, what is
/// below them, and its last rows and columns.
pub fn quarters<'a>(t: EWin<'a>, k: u32) -> (EWin<'a>, EWin<'a>, EWin<'a>, EWin<'a>)
    requires square { (e_shown t).rows ≡ (e_shown t).cols }
    requires within { k ≤ (e_shown t).rows }
    requires whole_words { k * width (e_shown t).field % 64 ≡ 0 }
    ensures first { e_shown result.0 ≡ cut (e_shown t.entry) 0 0 k k }
    ensures right { e_shown result.1 ≡ cut (e_shown t.entry) 0 k k (e_shown t.entry).cols }
    ensures below { e_shown result.2 ≡ cut (e_shown t.entry) k 0 (e_shown t.entry).rows k }
    ensures last { e_shown result.3 ≡ cut (e_shown t.entry) k k (e_shown t.entry).rows (e_shown t.entry).cols }
{
    let _rows = t.rows();
    let (top, bottom) = t.split_rows(k);
    let (first, right) = top.split_cols(k);
    let (below, last) = bottom.split_cols(k);
    (first, right, below, last)
}

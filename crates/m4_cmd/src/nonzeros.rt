//! How many entries of a matrix aren't zero.

ghost use Rattle.std.specs.Prelude.{◌≡◌, ◌≤◌, ◌<◌, nat_lt, count_by};
ghost use Rattle.m4_model.specs.Field.{gf2};
ghost use Rattle.m4_model.specs.Matrix.{row};
ghost use Rattle.m4_outcome.specs.Seeds.{nonzeros};

use m4_bits::words_for;
use m4_dense::Mzed;

/// How many entries of a matrix aren't zero.
pub(crate) fn nonzeros(matrix: &Mzed) -> u64
    ensures { result ≡ nonzeros matrix.now }
{
    let mut count = 0;
    for r in 0..matrix.rows() {
        count += u64::from(nonzeros_in_row(matrix, r));
    }
    count
}

/// How many entries of row `r` aren't zero.
fn nonzeros_in_row(matrix: &Mzed, r: u32) -> u32
    requires { r < matrix.now.rows }
    ensures count { result ≡ count_by (nat_lt 0) (row matrix.now r) }
    ensures few { result ≤ matrix.now.cols }
{
    if matrix.is_over_gf2() {
        ones_in_row(matrix, r)
    } else {
        elements_in_row(matrix, r)
    }
}

/// How many entries of row `r` over GF(2) are ones, word by word.
fn ones_in_row(matrix: &Mzed, r: u32) -> u32
    requires over_gf2 { matrix.now.field ≡ gf2 }
    requires in_rows { r < matrix.now.rows }
    ensures count { result ≡ count_by (nat_lt 0) (row matrix.now r) }
    ensures few { result ≤ matrix.now.cols }
{
    let entries = matrix.all().into_bits();
    let mut count = 0;
    for w in 0..words_for(matrix.cols()) {
        count += entries.word(r, w).count_ones();
    }
    count
}

/// How many entries of row `r` aren't zero, one by one.
fn elements_in_row(matrix: &Mzed, r: u32) -> u32
    requires { r < matrix.now.rows }
    ensures count { result ≡ count_by (nat_lt 0) (row matrix.now r) }
    ensures few { result ≤ matrix.now.cols }
{
    let mut count = 0;
    for c in 0..matrix.cols() {
        if matrix.get(r, c) != 0 {
            count += 1;
        }
    }
    count
}

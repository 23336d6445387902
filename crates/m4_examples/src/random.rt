//! Random matrices.

ghost use Rattle.std.specs.Prelude.{◌≡◌, ◌<◌, ◌≤◌, IfOk};
ghost use Rattle.std.specs.Option.{ForSome};
ghost use Rattle.m4_model.specs.Field.{gf2};
ghost use Rattle.m4_model.specs.Rank.{IsRank};
ghost use Rattle.m4_examples.specs.Regular.{IsRegular};

use m4_dense::{Field, How, MOST_SIDE, Mzed, NoMemory, rank};
use rand_core::Rng;
use std::alloc::Global;

/// A random regular matrix of n rows over GF(2), or none where not one of so many that are drawn is regular. Of the matrices
/// of some size about three in ten are regular.
pub fn draw_regular<R: Rng>(
    alloc: Global,
    source: &mut R,
    n: u32,
    tries: u32,
) -> Result<Option<Mzed>, NoMemory>
    requires { n ≤ MOST_SIDE }
    ensures { IfOk result (λ drawn. ForSome drawn (IsRegular n)) }
{
    for _ in 0..tries {
        let matrix = draw(alloc, source, n, n)?;
        if rank(alloc, How::default(), &matrix)? == n {
            return Ok(Some(matrix));
        }
    }
    Ok(None)
}

/// A random matrix over GF(2) of so many rows and columns.
pub fn draw<R: Rng>(alloc: Global, source: &mut R, rows: u32, cols: u32) -> Result<Mzed, NoMemory>
    requires few_rows { rows ≤ MOST_SIDE }
    requires few_cols { cols ≤ MOST_SIDE }
    ensures field { IfOk result (λ m. m.field ≡ gf2) }
    ensures rows { IfOk result (λ m. m.rows ≡ rows) }
    ensures cols { IfOk result (λ m. m.cols ≡ cols) }
{
    let mut matrix = Mzed::zeros(alloc, Field::gf2(), rows, cols)?;
    for r in 0..rows {
        draw_row(source, &mut matrix, r);
    }
    Ok(matrix)
}

/// Draws the entries of row `r`.
fn draw_row<R: Rng>(source: &mut R, matrix: &mut Mzed, r: u32)
    requires in_rows { r < matrix.old.rows }
    requires over_gf2 { matrix.old.field ≡ gf2 }
    ensures field { matrix.new.field ≡ matrix.old.field }
    ensures rows { matrix.new.rows ≡ matrix.old.rows }
    ensures cols { matrix.new.cols ≡ matrix.old.cols }
{
    for c in 0..matrix.cols() {
        matrix.put(r, c, source.next_u32() % 2);
    }
}

//! What is taken where a caller leaves open how things are computed. The borders were measured.

ghost use Rattle.std.specs.Prelude.{◌≡◌, ◌≤◌, unwrap_or};
ghost use Rattle.m4_model.specs.declared.algo.Algo.TheVariants.{Table};
ghost use Rattle.m4_gray.specs.declared.TheConstants.{MOST_K, MOST_TABLES};
ghost use Rattle.m4_model.specs.declared.algo.TheConstants.{LEAST_CUTOFF, MOST_CUTOFF};
ghost use Rattle.m4_elim.specs.Default.{fastest_algo, fastest_k};

use crate::how::How;
use m4_model::Algo;
use m4_mul::MOST_TABLES;
use m4_mzd::Shape;

/// The least side of a product from which halves pay.
pub(crate) const HALVES_PAY: u32 = 16_384;

/// The least number of rows from which tables of eight rows pay.
pub(crate) const LARGE_TABLES_PAY: u32 = 512;

/// The side up to which a product isn't halved.
pub(crate) const PRODUCT_CUTOFF: u32 = 4096;

/// The columns up to which an elimination doesn't halve a part of the matrix.
pub(crate) const ELIMINATION_CUTOFF: u32 = 2048;

/// By which algorithm, and in which sizes, products are made.
#[derive(Clone, Copy)]
pub(crate) struct Chosen {
    pub(crate) algo: Algo,
    pub(crate) k: u32,
    pub(crate) tables: u32,
    pub(crate) cutoff: u32,
    ghost some_k: { 1 ≤ k },
    ghost small_k: { k ≤ MOST_K },
    ghost some_tables: { 1 ≤ tables },
    ghost few_tables: { tables ≤ MOST_TABLES },
    ghost least_cutoff: { LEAST_CUTOFF ≤ cutoff },
    ghost most_cutoff: { cutoff ≤ MOST_CUTOFF },
}

impl Chosen {
    /// What is taken for products of this shape.
    pub(crate) fn for_product(how: How, shape: Shape) -> Chosen
        ensures algo { result.algo ≡ unwrap_or how.algo (fastest_algo shape) }
        ensures k { result.k ≡ unwrap_or how.k (fastest_k shape) }
        ensures tables { result.tables ≡ unwrap_or how.tables MOST_TABLES }
        ensures cutoff { result.cutoff ≡ unwrap_or how.cutoff PRODUCT_CUTOFF }
    {
        Chosen {
            algo: how.algo.unwrap_or(fastest_algo(shape)),
            k: how.k.unwrap_or(fastest_k(shape)),
            tables: tables(how),
            cutoff: how.cutoff.unwrap_or(PRODUCT_CUTOFF),
        }
    }

    /// What is taken for the products that an elimination is made of, up to this shape.
    pub(crate) fn for_elimination(how: How, shape: Shape) -> Chosen
        ensures algo { result.algo ≡ unwrap_or how.algo Table }
        ensures k { result.k ≡ unwrap_or how.k (fastest_k shape) }
        ensures tables { result.tables ≡ unwrap_or how.tables MOST_TABLES }
        ensures cutoff { result.cutoff ≡ unwrap_or how.cutoff ELIMINATION_CUTOFF }
    {
        Chosen {
            algo: how.algo.unwrap_or(Algo::Table),
            k: how.k.unwrap_or(fastest_k(shape)),
            tables: tables(how),
            cutoff: how.cutoff.unwrap_or(ELIMINATION_CUTOFF),
        }
    }
}

/// How many tables are used at a time.
fn tables(how: How) -> u32
    ensures tables { result ≡ unwrap_or how.tables MOST_TABLES }
    ensures some { 1 ≤ result }
    ensures few { result ≤ MOST_TABLES }
{
    how.tables.unwrap_or(MOST_TABLES)
}

/// The algorithm of products of this shape.
fn fastest_algo(shape: Shape) -> Algo
    ensures { result ≡ fastest_algo shape }
{
    if shape.m >= HALVES_PAY && shape.l >= HALVES_PAY && shape.n >= HALVES_PAY {
        Algo::Strassen
    } else {
        Algo::Table
    }
}

/// The rows that share a table, in products of this shape.
fn fastest_k(shape: Shape) -> u32
    ensures k { result ≡ fastest_k shape }
    ensures some { 1 ≤ result }
    ensures few { result ≤ MOST_K }
{
    if shape.m >= LARGE_TABLES_PAY { 8 } else { 6 }
}

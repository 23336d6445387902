//! How things are computed.

ghost use Rattle.std.specs.Prelude.{◌≤◌};
ghost use Rattle.std.specs.Option.{ForSome};
ghost use Rattle.m4_gray.specs.declared.TheConstants.{MOST_K, MOST_TABLES};
ghost use Rattle.m4_model.specs.declared.algo.TheConstants.{LEAST_CUTOFF, MOST_CUTOFF};

use m4_model::Algo;

/// How things are computed: by which algorithm, and in which sizes. It decides about time and memory alone: whatever it
/// says, the clauses of a call hold.
///
/// `How::default()` suits everybody: it leaves all of it open, and what is open is taken as it was measured to be fastest,
/// by the size of what is computed. Another one is written as
/// `How { algo: Some(Algo::Table), k: Some(6), tables: None, cutoff: None }`.
#[derive(Clone, Copy)]
pub struct How {
    /// How products of bits are computed, which all other products are made of. `Algo::Plain` is row by row over every field.
    pub algo: Option<Algo>,
    /// The rows of the second factor that share a table, 1 to `MOST_K`: a table has `2^k` rows of the product's length.
    pub k: Option<u32>,
    /// How many tables are used at a time, 1 to `MOST_TABLES`.
    pub tables: Option<u32>,
    /// The size up to which nothing is halved, `LEAST_CUTOFF` to `MOST_CUTOFF`: with `Algo::Strassen` the sides of a product,
    /// and in an elimination the columns of a part of the matrix.
    pub cutoff: Option<u32>,
    ghost some_k: { ForSome k (λ n. 1 ≤ n) },
    ghost small_k: { ForSome k (λ n. n ≤ MOST_K) },
    ghost some_tables: { ForSome tables (λ n. 1 ≤ n) },
    ghost few_tables: { ForSome tables (λ n. n ≤ MOST_TABLES) },
    ghost least_cutoff: { ForSome cutoff (λ n. LEAST_CUTOFF ≤ n) },
    ghost most_cutoff: { ForSome cutoff (λ n. n ≤ MOST_CUTOFF) },
}

impl Default for How {
    ghost use Rattle.m4_elim.specs.Default.{IsOpen};

    ghost is_default = { IsOpen };

    /// Nothing is asked for.
    fn default() -> How {
        How {
            algo: None,
            k: None,
            tables: None,
            cutoff: None,
        }
    }
}

//! How products are computed.

/// The least size up to which nothing is halved.
pub const LEAST_CUTOFF: u32 = 64;

/// The greatest size up to which nothing is halved.
pub const MOST_CUTOFF: u32 = 65_536;

/// How products are computed. The answer is the same.
#[derive(Clone, Copy, Debug, PartialEq, Eq)]
pub enum Algo {
    /// Row by row.
    Plain,
    /// By tables of the sums of a few rows.
    Table,
    /// By halves, with seven products of quarters in place of eight, and by tables what isn't halved.
    Strassen,
}

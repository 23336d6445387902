//! Factors whose entries are polynomials, as slices.

ghost use Rattle.std.specs.Prelude.{◌≤◌};

use m4_mzd::{Shape, Win};

/// Two factors, of `m` x `l` and of `l` x `n` polynomials, as slices that lie one below the other: of each factor `count`.
#[derive(Clone, Copy)]
pub(crate) struct Factors<'a> {
    pub(crate) a: Win<'a>,
    pub(crate) b: Win<'a>,
    pub(crate) shape: Shape,
    pub(crate) count: u32,
}

impl<'a> Factors<'a> {
    ghost use Rattle.m4_karatsuba.specs.Factors.{AreFactors, AreHalves};

    /// The lower slices of both factors, of which there are as many as upper ones or one more, and the upper ones.
    pub(crate) fn halves(self) -> (Factors<'a>, Factors<'a>)
        requires factors { AreFactors self }
        requires some { 2 ≤ self.count }
        ensures { AreHalves self.entry result.0 result.1 }
    {
        let shape = self.shape;
        let _rows = self.a.rows();
        let _rows_of_b = self.b.rows();
        let low = self.count.div_ceil(2);
        let high = self.count - low;
        let (low_a, high_a) = self.a.split_rows(low * shape.m);
        let (low_b, high_b) = self.b.split_rows(low * shape.l);
        (
            Factors {
                a: low_a,
                b: low_b,
                shape,
                count: low,
            },
            Factors {
                a: high_a,
                b: high_b,
                shape,
                count: high,
            },
        )
    }
}

//! The library's front door: what is asked of matrices over a field. Each call has one clause that says what it answers, by
//! a definition of `m4_model`, and want of memory is the one refusal.
//!
//! The matrix is `Mzed`, over GF(2) or over a field GF(2^e) of a degree up to 16: its rows, its columns, its field and an
//! entry are calls of its own, and `zeros`, `put`, `from_digits` and `from_words` make one; `are_equal` compares two. `How`
//! says how things are computed, and `How::default()` suits everybody: no caller names an engine, a table or a window.
//!
//! The product of two matrices over one field, of shapes that fit, is `product(alloc, How::default(), &a, &b)?`.
//!
//! All of it is there over every field: sums, products, the transpose and the parts of matrices, and the eliminations, which are
//! the rank, the reduced form, inverses, solutions, the kernel and the factors. Eliminations and `How` are those of `m4_elim`,
//! under the same names.
#![tactic(auto)]

mod equal;
mod listed;
mod products;
mod shapes;

pub use equal::are_equal;
pub use listed::{from_digits, from_words};
pub use m4_elim::{
    How, PleFactors, PluqFactors, inverse, kernel, pivot_form, ple, pluq, rank, reduced_form,
    solution,
};
pub use m4_field::{Field, FieldFault};
pub use m4_model::{Algo, LEAST_CUTOFF, MOST_CUTOFF, NoMemory};
pub use m4_mul::{MOST_K, MOST_TABLES};
pub use m4_mzd::{MOST_SIDE, Mzd, Rect};
pub use m4_mzed::Mzed;
pub use m4_perm::Perm;
pub use m4_solve::{ReducedForm, kernel_of};
pub use products::{add_product, product};
pub use shapes::{add_into, augment, rectangle, stack, sum, transpose};

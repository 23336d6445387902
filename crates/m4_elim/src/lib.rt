//! Eliminations over every field, by engines and bases that the field and `How` choose: the rank, the reduced form, inverses,
//! solutions, the kernel and the factors. The engines are those of products too.
//!
//! The front door, `m4_dense`, has these calls under the same names.
#![tactic(auto)]

mod chosen;
mod elimination;
mod engine;
mod factors;
mod field_engine;
mod how;
mod systems;

pub use engine::Engine;
pub use factors::{PleFactors, PluqFactors, ple, pluq};
pub use field_engine::{FieldEngine, product_engine};
pub use how::How;
pub use systems::{inverse, kernel, pivot_form, rank, reduced_form, solution};

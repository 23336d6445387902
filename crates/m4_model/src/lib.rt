//! The definitions of m4lin: fields, matrices, eliminations and texts, and the laws that hold of them.
//!
//! The definitions stand in `specs/`, grouped by subject. They are what a reader has to believe; nothing in them
//! speaks of machine words, masks or loops. `docs/DEFINITIONS.md` says each one in words.
#![tactic(auto)]

mod algo;
mod factor_laws;
mod field_laws;
mod form;
mod form_laws;
mod no_memory;
mod recursion_laws;
mod ring_laws;

pub use algo::{Algo, LEAST_CUTOFF, MOST_CUTOFF};
pub use factor_laws::{law_ple, law_ple_step};
pub use field_laws::law_field;
pub use form::Form;
pub use form_laws::{law_inverse, law_kernel, law_reduced, law_solution};
pub use no_memory::NoMemory;
pub use recursion_laws::{law_need, law_winograd};
pub use ring_laws::law_ring;

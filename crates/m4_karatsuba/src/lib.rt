//! Products of matrices over GF(2^e) by products of their slices: Karatsuba's multiplication of polynomials, here with matrices
//! over GF(2) for coefficients, over any engine for matrices of bits.
//!
//! Sources: A. Karatsuba and Yu. Ofman, "Multiplication of multidigit numbers on automata", Soviet Physics Doklady 7 (1963);
//! M. Albrecht, "The M4RIE library for dense linear algebra over small fields with even characteristic", ISSAC 2012.
#![tactic(auto)]

mod engine;
mod factors;
mod laws;
mod product;
mod recursion;
mod reduce;
mod sums;
#[cfg(test)]
mod tests;

pub use engine::KaratsubaMul;
pub use laws::{law_halves, law_products};

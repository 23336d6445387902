//! Certificates: what stands beside a claim of a rank, of a singular matrix or of equations without a solution, so that it is
//! seen to hold by multiplying alone.
//!
//! The laws say what a certificate means, whoever made it: no elimination has to be believed.
#![tactic(auto)]

mod holds;
mod laws;
mod products;
mod zeros;

pub use holds::{none_holds, singular_holds};
pub use laws::{law_cert_none, law_cert_rank, law_cert_singular};

//! The texts of a matrix over GF(2), in three forms.
//!
//! - Headed text: `gf2 M N` and a line feed, then M lines of N digits 0 or 1 and a line feed. A number is `0`, or a digit
//!   from 1 to 9 and at most eight more digits.
//! - Bare text: the lines alone. The first tells the columns.
//! - JCF: the numbers of rows and columns, the modulus 2 and the number of ones, and then the columns of the ones,
//!   counted from 1, a minus sign standing before each that begins a row.
//!
//! `read_as` reads a whole text, and `Reader` one in pieces; both tell the exact place where one goes wrong. `write_as`
//! writes the one text of a matrix, where `can_write` says that the form can hold it. `write_numbers` writes a line of
//! numbers.
#![tactic(auto)]

mod bare;
mod body;
mod fault;
mod form;
mod header;
mod jcf_read;
mod jcf_write;
mod laws;
mod limits;
mod number_line;
mod pending;
mod read;
mod reader;
#[cfg(test)]
mod tests;
mod tokens;
mod write;

pub use fault::{TextFault, WriteFault};
pub use form::{can_write, read_as, write_as};
pub use laws::{law_read, law_read_back, law_read_or_refused, law_text_len};
pub use limits::{MOST_BYTES, MOST_COLS, MOST_ROWS, MOST_WORDS, within_limits};
pub use m4_model::Form;
pub use number_line::write_numbers;
pub use read::read_text;
pub use reader::Reader;
pub use write::write_text;

//! The texts of a matrix over any field.
//!
//! Headed text, in two versions:
//!
//! - Over GF(2), version 1: `gf2 M N` and a line feed, then M lines of N digits 0 or 1 and a line feed.
//! - Over GF(2), version 2: `gf2x M N` and a line feed, then lines of hexadecimal digits, each of which is four entries, the
//!   first of them its lowest bit.
//! - Over GF(2^e), in both versions: `gf2e E POLY M N` and a line feed, the polynomial in hexadecimal, then lines of N elements,
//!   each of as many hexadecimal digits as its E bits need, the highest first.
//!
//! Bare text and JCF, which hold matrices over GF(2) alone, are those of `m4_text`.
//!
//! `Reader` is fed a text in pieces, and tells the exact place where it goes wrong. Of headed and bare text it keeps the matrix and a
//! place in it, and no bytes but those of a header line that isn't whole; of JCF it keeps the bytes. `write_text` writes the one text
//! of a matrix in a form, where `can_write` says that the form can hold it. `write_numbers` writes a line of numbers.
#![tactic(auto)]

mod bare;
mod bare_rows;
mod base;
mod bits;
mod eight;
mod elements;
mod fault;
mod fed;
mod first_line;
mod form;
mod form_reader;
mod gathered;
mod head;
mod header;
mod hex;
mod kind;
mod laws;
mod limits;
mod number_line;
mod opening;
mod pending;
mod piece;
mod radix;
mod reader;
#[cfg(test)]
mod tests;
mod turned;
mod write;

pub use fault::{TextFault, WriteFault};
pub use form::{can_write, write_text};
pub use form_reader::Reader;
pub use hex::{HexNumber, hex_number};
pub use laws::{law_read, law_read_back};
pub use limits::{MOST_BYTES, MOST_COLS, MOST_ROWS, MOST_WORDS, within_limits};
pub use m4_model::Form;
pub use number_line::write_numbers;
pub use reader::HeadedReader;

//! The forms of texts.

/// A form of a text.
#[derive(Clone, Copy, Debug, PartialEq, Eq)]
pub enum Form {
    /// Headed text: a line with the shape, and a line of digits for each row.
    Headed,
    /// Bare text: a line of digits for each row.
    Bare,
    /// JCF: the shape, and for each row the numbers of the columns of its ones.
    Jcf,
    /// Headed text in version 2, of four entries over GF(2) a digit. It is read as headed text is.
    Hex,
}

//! What lies around a window that was taken out of a matrix.

use m4_area::{Storage, Words};

/// What lies around a window that was taken out of a matrix, and the memory that its words go back to.
pub struct Around {
    pub(crate) above: Words,
    pub(crate) below: Words,
    pub(crate) left: Words,
    pub(crate) right: Words,
    pub(crate) storage: Storage,
    pub(crate) cols: u32,
}

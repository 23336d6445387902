/// Where each piece of a parallel job reports as it starts.
///
/// A caller can hold the pieces up here, and see so that they run at one time.
pub trait Gate {
    /// Called by a piece of work as it starts, with the piece's number. It returns.
    fn enter(&self, piece: u32);
}

/// The gate that holds nobody up.
#[derive(Clone, Copy, Debug, PartialEq, Eq)]
pub struct OpenGate;

impl Gate for OpenGate {
    fn enter(&self, _piece: u32) {}
}

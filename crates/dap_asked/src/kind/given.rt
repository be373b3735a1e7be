//! What is asked of a text that a request gives.

/// What is asked of it.
#[derive(Clone, Copy)]
pub enum Given {
    /// What there is to say of it.
    Check,
    /// The lines of its parts.
    Bundle,
}

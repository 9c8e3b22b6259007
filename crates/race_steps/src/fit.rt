//! What a walk finds at one place.

/// What stands at one place, beside what is asked for next.
#[derive(Clone, Copy)]
pub(crate) enum Fit {
    /// Nothing that is to be compared.
    Nothing,
    /// What is asked for next.
    Next,
    /// Something else than what is asked for next, or more than is asked for.
    Other,
}

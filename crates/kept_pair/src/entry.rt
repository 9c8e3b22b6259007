//! What is kept of one step.

use pair_core::PairStep;

/// A step that was made. What a pack drained and read ends at these places of the lists of all drains and reads, and begins
/// where that of the step before ends; a step of another kind has nothing there.
#[derive(Drop)]
pub(crate) struct Entry {
    pub(crate) step: PairStep,
    pub(crate) drains_end: usize,
    pub(crate) reads_end: usize,
}

//! Why a step cannot be kept.

/// Why there is no room for one more step.
#[derive(Clone, Copy, Debug, PartialEq, Eq)]
pub enum KeepFault {
    /// So many steps are kept, and no more can be.
    NoRoom { kept: u32 },
    /// Memory was not to be had.
    NoMemory,
}

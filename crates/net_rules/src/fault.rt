//! Why a run over a link ends.

/// Why a server, or one who joined, ended before its last turn.
#[derive(Clone, Copy, Debug, PartialEq, Eq)]
pub enum NetFault {
    /// Memory was not to be had.
    NoMemory,
    /// The link failed.
    LinkFault,
    /// The clock failed.
    ClockFault,
    /// The sink failed.
    WriteFault,
}

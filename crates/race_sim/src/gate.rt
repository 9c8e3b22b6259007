//! The places that the activities of a match pass.

/// Who passes a place.
#[derive(Clone, Copy, Debug, PartialEq, Eq)]
pub enum Actor {
    /// The simulation, which does the lines `tick`, `scan` and `post`.
    Sim,
    /// The packer of a client, which does its `pack` lines.
    Packer(u8),
    /// The net activity of a client, which does its other lines.
    Net(u8),
}

/// Where an activity is, by the place of a line in the script's body, counted from 0.
#[derive(Clone, Copy, Debug, PartialEq, Eq)]
pub enum Place {
    /// It is about to do the line.
    Before(u32),
    /// The values of this tick are stored, and no client is told of them yet.
    Inside(u32),
    /// It did the line, or passed over it.
    After(u32),
}

/// What each activity passes on its way. A test can hold it there.
pub trait Gate {
    /// The actor comes by this place.
    fn pass(&self, actor: Actor, place: Place);
}

/// A gate at which nobody is held.
#[derive(Clone, Copy, Debug, PartialEq, Eq)]
pub struct FreeGate;

impl Gate for FreeGate {
    fn pass(&self, _actor: Actor, _place: Place) {}
}

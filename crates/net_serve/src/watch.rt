//! Who looks on while a match is served.

use match_report::Told;

/// Who looks on while a match is served. Nothing of the match, of its script or of what is sent depends on it.
pub trait Watch {
    /// An arrival of a client was done, and this is what its line tells.
    fn arrived(&mut self, client: u8, told: &Told);
}

/// Nobody looks on.
#[derive(Clone, Copy, Debug, PartialEq, Eq)]
pub struct Nobody;

impl Watch for Nobody {
    fn arrived(&mut self, _client: u8, _told: &Told) {}
}

//! What of a connection's terms its datagrams depend on.

/// The version of the wire, and in version 3 how wide a move is.
#[derive(Clone, Copy, Debug, PartialEq, Eq)]
pub struct Wire {
    /// 1, 2 or 3.
    pub version: u8,
    /// How many bits a move has in version 3: 1 to 64, and what is above counts as 64. In versions 1 and 2 a move has 10 bits,
    /// whatever stands here.
    pub move_bits: u8,
}

impl Wire {
    ghost use Rattle.std.specs.Prelude.{◌≡◌};
    ghost use Rattle.wire_format.specs.Moves.{old_wire};

    /// Version 1 or 2.
    pub fn old(version: u8) -> Wire
        ensures { result ≡ old_wire version }
    {
        Wire {
            version,
            move_bits: 10,
        }
    }
}

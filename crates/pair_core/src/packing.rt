//! The server's next datagram, with the values of what it carries.
ghost use Rattle.std.specs.Prelude.{◌≡◌, true, ◌<◌, ◌≤◌, List, [], length};
ghost use Rattle.tn_types.specs.declared.choices.Read.{Read};
ghost use Rattle.pair_core.specs.Answers.{of_made};
ghost use Rattle.pair_core.specs.Flat.{count_with};

use crate::pair::Pair;
use crate::step::Answer;
use conn_packing::{MAX_PACKET_VALUES, Made};
use tn_types::{Drain, MAX_DATAGRAMS, PacketKind, Values};

/// What a pack answers, by what it made: its datagram has this place.
fn packed(made: Made, place: u32) -> Answer
    ensures { result ≡ of_made made place }
{
    match made {
        Made::Ping { len: _ } => Answer::Packed {
            kind: PacketKind::Ping,
            place,
        },
        Made::Body { len: _ } => Answer::Packed {
            kind: PacketKind::Body,
            place,
        },
        Made::Worn { life } => Answer::Worn { life },
    }
}

/// How many were sent with what a pack made, where so many were sent before.
fn counted(made: &Made, sent: u32) -> u32
    requires { sent < MAX_DATAGRAMS }
    ensures { result ≡ count_with made.now sent }
{
    match made {
        Made::Ping { len: _ } => sent + 1,
        Made::Body { len: _ } => sent + 1,
        Made::Worn { life: _ } => sent,
    }
}

impl Pair {
    ghost use Rattle.pair_core.specs.History.{Pack};
    ghost use Rattle.pair_core.specs.Answers.{answer};
    ghost use Rattle.pair_core.specs.Calls.{Answers, Packs, MayPack, KeepsAtServer};

    /// The server makes its next datagram. Where the state is Room, these drains are absorbed first, and the data packet
    /// carries values that are asked for now: each field that its ghosts carry once, in their order and by rising field, and
    /// nothing else. Where it is Held or Worn, nothing is drained or asked. It takes no memory; there has to be room for the
    /// datagram. A caller that keeps the step with its reads lends `Noting` of `conn_packing`.
    pub fn pack<V: Values>(&mut self, drains: &[Drain], values: &mut V) -> Answer
        requires prepared { self.old.prepared ≡ true }
        requires few { self.old.sent < MAX_DATAGRAMS }
        requires may { MayPack self.old drains.now (V.ranges values.old) }
        ensures answer { Answers self.old (λ t steps. answer t steps (Pack drains.now [])) result }
        ensures told { (reads : List Read) × Packs self.old drains.now reads self.new
            × V.asks values.old reads values.new × (length reads ≤ MAX_PACKET_VALUES) }
        ensures keeps { KeepsAtServer self.old self.new }
        ensures keeping { self.new.keeps_all ≡ self.old.keeps_all }
    {
        let place = self.sent;
        let made = self
            .down
            .pack(&mut self.packer, &mut self.conn, drains, values);
        self.sent = counted(&made, place);
        self.down.keep(self.keeps_all);
        packed(made, place)
    }
}

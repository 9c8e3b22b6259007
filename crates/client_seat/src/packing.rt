//! The datagrams that both ends make.
ghost use Rattle.std.specs.Prelude.{◌≡◌, true, ℕ, ◌<◌, ◌≤◌, List, [], IfOk, IfSome, OnOk, length, Some};
ghost use Rattle.std.specs.Option.{option_copied};
ghost use Rattle.tn_types.specs.declared.choices.PacketKind.{PacketKind};
ghost use Rattle.tn_types.specs.declared.choices.Read.{Read};
ghost use Rattle.own_lists.specs.pair_core.declared.step.Answer.TheVariants as says;
ghost use Rattle.own_lists.specs.pair_core.History.{ClientPack};
ghost use Rattle.own_lists.specs.pair_core.Keeping.{newest};
ghost use Rattle.match_report.specs.declared.told.Told.TheVariants as told_as;
ghost use Rattle.client_seat.specs.Answering.{TellsPack};
ghost use Rattle.own_lists.specs.pair_core.Stands.{sent_by};

use crate::seat::Seat;
use match_report::Told;
use own_lists::pair_core::{Answer, Pair, PairStep};
use std::alloc::Global;
use tn_types::{
    Drain, End, MAX_DATAGRAM_BYTES, MAX_DATAGRAMS, NoMemory, PacketKind, RawBytes, Values,
};

// These bytes, in room that was given back if there is any.
fn refilled(alloc: Global, spare: Option<RawBytes>, bytes: &[u8]) -> Result<RawBytes, NoMemory>
    requires { length bytes.now ≤ MAX_DATAGRAM_BYTES }
    ensures { IfOk result (λ raw. raw ≡ bytes.now) }
{
    match spare {
        Some(mut room) => {
            room.refill(bytes)?;
            Ok(room)
        }
        None => RawBytes::from_slice(alloc, bytes),
    }
}

/// What is told of a datagram that was made.
fn packed(
    alloc: Global,
    spare: Option<RawBytes>,
    by: End,
    client: u8,
    place: u32,
    kind: PacketKind,
    datagram: Option<&[u8]>,
) -> Result<Told, NoMemory>
    requires { IfSome datagram (λ b. length b.now ≤ MAX_DATAGRAM_BYTES) }
    ensures { IfOk result (λ told. (bytes : List ℕ) → option_copied datagram.entry ≡ Some bytes →
        told ≡ told_as.Packed by client place kind bytes) }
{
    let bytes = refilled(alloc, spare, datagram.unwrap_or(&[]))?;
    Ok(Told::Packed {
        by,
        client,
        place,
        kind,
        bytes,
    })
}

/// What is told of a pack, by its answer.
fn packed_by(
    alloc: Global,
    spare: &mut Option<RawBytes>,
    by: End,
    client: u8,
    answer: Answer,
    pair: &Pair,
) -> Result<Told, NoMemory>
    requires { TellsPack answer }
    ensures worn { (life : ℕ) → answer ≡ says.Worn life → IfOk result (λ told. told ≡ told_as.PackWorn by client life) }
    ensures made { (kind : PacketKind) (place : ℕ) (bytes : List ℕ) → answer ≡ says.Packed kind place
        → newest (sent_by by pair.now) ≡ Some bytes
        → IfOk result (λ told. told ≡ told_as.Packed by client place kind bytes) }
{
    match answer {
        Answer::Worn { life } => Ok(Told::PackWorn { by, client, life }),
        Answer::Packed { kind, place } => packed(
            alloc,
            spare.take(),
            by,
            client,
            place,
            kind,
            pair.newest(by),
        ),
        _ => unreachable!(),
    }
}

impl Seat {
    ghost use Rattle.own_lists.specs.pair_core.Calls.{MayPack};
    ghost use Rattle.client_seat.specs.Told.{client_pack_told};
    ghost use Rattle.own_lists.specs.Course.{with_step};
    ghost use Rattle.client_seat.specs.Stands.{Stands, Answers, Becomes, Packs};

    /// The server makes its next datagram: where the state is Room, these drains are absorbed first, and the data packet
    /// carries values that are asked for now. Want of memory may leave the drains absorbed.
    pub fn pack<V: Values>(
        &mut self,
        alloc: Global,
        client: u8,
        drains: &[Drain],
        values: &mut V,
    ) -> Result<Told, NoMemory>
        requires stands { Stands self.old }
        requires few { self.old.pair.sent < MAX_DATAGRAMS }
        requires may { MayPack self.old.pair drains.now (V.ranges values.old) }
        ensures packs { IfOk result (λ told. (reads : List Read) × Packs self.old drains.now reads client told self.new
            × V.asks values.old reads values.new) }
        ensures keeping { self.new.pair.keeps_all ≡ self.old.pair.keeps_all }
    {
        self.pair.prepare(alloc)?;
        let answer = self.pair.pack(drains, values);
        packed_by(
            alloc,
            &mut self.spare,
            End::Server,
            client,
            answer,
            &self.pair,
        )
    }

    /// The client makes its next datagram.
    pub fn client_pack(&mut self, alloc: Global, client: u8) -> Result<Told, NoMemory>
        requires stands { Stands self.old }
        requires few { length self.old.pair.up < MAX_DATAGRAMS }
        ensures told { IfOk result (Answers self.old (λ t k. client_pack_told client t k.steps)) }
        ensures stands { OnOk result (Becomes self.old (λ t k. with_step ClientPack k) self.new) }
        ensures keeping { self.new.pair.keeps_all ≡ self.old.pair.keeps_all }
    {
        self.pair.prepare(alloc)?;
        let answer = self.pair.step(&PairStep::ClientPack);
        packed_by(
            alloc,
            &mut self.spare,
            End::Client,
            client,
            answer,
            &self.pair,
        )
    }
}

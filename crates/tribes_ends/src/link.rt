//! One end of a connection, whichever it is.
ghost use Rattle.std.specs.Prelude.{◌≡◌, ℕ, ◌≤◌, IfOk, IfSome, IsNone, OnOk, OnErr, Ok, None, true, length, take};
ghost use Rattle.std.specs.Result.{result_err};
ghost use Rattle.tn_types.specs.declared.choices.Class.TheVariants.{Guaranteed};

use crate::asking::Ask;
use crate::counts::Counts;
use crate::drawing::{self, DrawFault};
use crate::handing::Popped;
use crate::refusal::Refusal;
use crate::rows::{Change, Copied, Judged};
use crate::tables::{ConfigRow, FieldRow, KindRow, block_list, config, kind_table};
use crate::why::Why;
use crate::{client, server};
use std::alloc::Global;
use std::marker::Model;
use stream_manager::{Client, Conn};
use timeline::Timeline;
use tn_types::{Class, MAX_EVENT_BYTES, MAX_PACKET_GHOSTS, MAX_PACKET_MOVES, MAX_UNJUDGED_PACKETS};

/// What a pack made.
#[derive(Clone, Copy, Debug, PartialEq, Eq)]
pub enum Packed {
    /// A data packet of so many bytes.
    Data { count: usize },
    /// A ping of so many bytes.
    Ping { count: usize },
    /// Nothing: as many data packets were sent as a connection has in its life.
    Nothing,
}

impl Packed {
    /// The bytes that it made, of the place where it made them; none where it made nothing.
    pub fn bytes<'a>(&self, place: &'a [u8]) -> &'a [u8] {
        let count = match *self {
            Packed::Data { count } => count,
            Packed::Ping { count } => count,
            Packed::Nothing => 0,
        };
        let (made, _) = place.split_at(count.min(place.len()));
        made
    }
}

/// Either end.
#[derive(Drop)]
pub enum Side {
    Server(Conn),
    Client(Client),
}

/// One end of a connection, and why its last call did nothing. A clause sees the end alone.
#[derive(Drop)]
pub struct Link {
    side: Side,
    why: Why,
}

impl Model for Link {
    ghost use Rattle.tribes_ends.specs.declared.link.Side.{Side};

    ghost Value = { Side };

    ghost view = { λ l. l.side };
}

/// Hands on what may go to another thread.
fn sendable<T: Send>(value: T) -> T
    ensures { result ≡ value }
{
    value
}

const NONE: Why = Why {
    code: 0,
    first: 0,
    second: 0,
};

impl Link {
    ghost use Rattle.stream_manager.specs.Server.{Scoped, Show, Hide, Near, Absorb};
    ghost use Rattle.timeline.specs.Standing.{KeepsShape};
    ghost use Rattle.tribes_ends.specs.Codes.{is_refusal, code_of};
    ghost use Rattle.tribes_ends.specs.Drawing.{HearsAt, HearingRefused};
    ghost use Rattle.tribes_ends.specs.Lists.{ListsMoves, ListsPending, ListsVerdicts, ListsChanges, HasBlock, IsNextCopy, HasCopy};
    ghost use Rattle.tribes_ends.specs.Making.{config_of, kinds_of, terms_from, server_refusal, client_refusal, IsMadeUnless};
    ghost use Rattle.tribes_ends.specs.Refusals.{at_server, at_client, show_refusal, hide_refusal, near_refusal, changed_refusal, settled_refusal, slot_refusal, room_refusal, moves_refusal, ask_refusal, PostRefused, SampleRefused, ArrivalRefused, PackRefused, BlockRefused, CopyRefused};
    ghost use Rattle.tribes_ends.specs.Sides.{BeginsAtServer, BeginsAtClient, DoesAtServer, IsNextPeriod, IsSettled, HasSlot, HasControl, Posts, IsNextEvent, Pops, HasNoEvent, Samples, Takes, Plans, AsksNothing, Sends, Pings, SendsNothing, AreCounts};

    /// The server's end of a new connection.
    pub fn server(
        alloc: Global,
        row: &ConfigRow,
        kinds: &[KindRow],
        fields: &[FieldRow],
        bytes: &[u8],
        lengths: &[u32],
    ) -> Result<Link, Refusal>
        ensures begins { IfOk result (BeginsAtServer (terms_from row.now kinds.now fields.now bytes.now lengths.now)) }
        ensures refused { IsMadeUnless (server_refusal row.now kinds.now fields.now bytes.now lengths.now) result }
    {
        let config = config(row)?;
        let table = kind_table(kinds, fields)?;
        let blocks = block_list(alloc, bytes, lengths)?;
        let conn = Conn::new(alloc, config, &table, blocks.as_slice())?;
        Ok(sendable(Link {
            side: Side::Server(conn),
            why: NONE,
        }))
    }

    /// The client's end of a new connection.
    pub fn client(
        alloc: Global,
        row: &ConfigRow,
        kinds: &[KindRow],
        fields: &[FieldRow],
    ) -> Result<Link, Refusal>
        ensures begins { IfOk result (BeginsAtClient (config_of row.now) (kinds_of kinds.now fields.now)) }
        ensures refused { IsMadeUnless (client_refusal row.now kinds.now fields.now) result }
    {
        let config = config(row)?;
        let table = kind_table(kinds, fields)?;
        let end = Client::new(alloc, config, &table)?;
        Ok(Link {
            side: Side::Client(end),
            why: NONE,
        })
    }

    /// Notes why a call did nothing, and gives its code.
    pub fn refuse(&mut self, refusal: Refusal) -> i32
        ensures below { is_refusal result ≡ true }
        ensures code { result ≡ code_of refusal }
        ensures unchanged { self.new ≡ self.old }
    {
        self.why = refusal.why();
        self.why.code
    }

    /// Why the last call that did nothing did nothing.
    pub fn why(&self) -> Why {
        self.why
    }

    /// Shows an object (docs/connection.md, "Periods and slots"), and gives the number of its period.
    pub fn show(&mut self, kind: u32, block: u32, level: u32, control: bool) -> Result<u32, Refusal>
        ensures told { OnOk result (DoesAtServer self.old (Scoped (Show kind block level control)) self.new) }
        ensures number { IfOk result (IsNextPeriod self.old) }
        ensures unchanged { OnErr result (self.new ≡ self.old) }
        ensures refused { result_err result ≡ at_server (show_refusal kind block level control) self.old }
    {
        match &mut self.side {
            Side::Server(conn) => server::show(conn, kind, block, level, control),
            Side::Client(_) => Err(Refusal::WrongEnd),
        }
    }

    /// Ends a period.
    pub fn hide(&mut self, n: u32) -> Result<(), Refusal>
        ensures told { OnOk result (DoesAtServer self.old (Scoped (Hide n)) self.new) }
        ensures unchanged { OnErr result (self.new ≡ self.old) }
        ensures refused { result_err result ≡ at_server (hide_refusal n) self.old }
    {
        match &mut self.side {
            Side::Server(conn) => server::hide(conn, n),
            Side::Client(_) => Err(Refusal::WrongEnd),
        }
    }

    /// Puts a period at another level of distance.
    pub fn near(&mut self, n: u32, level: u32) -> Result<(), Refusal>
        ensures told { OnOk result (DoesAtServer self.old (Scoped (Near n level)) self.new) }
        ensures unchanged { OnErr result (self.new ≡ self.old) }
        ensures refused { result_err result ≡ at_server (near_refusal n level) self.old }
    {
        match &mut self.side {
            Side::Server(conn) => server::near(conn, n, level),
            Side::Client(_) => Err(Refusal::WrongEnd),
        }
    }

    /// Notes that fields of a period's object changed.
    pub fn changed(&mut self, n: u32, bits: u32) -> Result<(), Refusal>
        ensures told { OnOk result (DoesAtServer self.old (Scoped (Absorb n bits)) self.new) }
        ensures unchanged { OnErr result (self.new ≡ self.old) }
        ensures refused { result_err result ≡ at_server (changed_refusal n bits) self.old }
    {
        match &mut self.side {
            Side::Server(conn) => server::changed(conn, n, bits),
            Side::Client(_) => Err(Refusal::WrongEnd),
        }
    }

    /// Whether the client has the newest value of a field that was noted as changed.
    pub fn settled(&self, n: u32, field: u32) -> Result<bool, Refusal>
        ensures told { IfOk result (IsSettled self.now n field) }
        ensures refused { result_err result ≡ at_server (settled_refusal n field) self.now }
    {
        match &self.side {
            Side::Server(conn) => server::settled(conn, n, field),
            Side::Client(_) => Err(Refusal::WrongEnd),
        }
    }

    /// The slot that a period holds; `None` where it holds none.
    pub fn slot(&self, n: u32) -> Result<Option<u8>, Refusal>
        ensures told { IfOk result (HasSlot self.now n) }
        ensures refused { result_err result ≡ at_server (slot_refusal n) self.now }
    {
        match &self.side {
            Side::Server(conn) => server::slot(conn, n),
            Side::Client(_) => Err(Refusal::WrongEnd),
        }
    }

    /// The slot of the client's own object; `None` where it has none.
    pub fn control(&self) -> Result<Option<u8>, Refusal>
        ensures told { IfOk result (HasControl self.now) }
        ensures refused { result_err result ≡ at_client (λ c. None) self.now }
    {
        match &self.side {
            Side::Server(_) => Err(Refusal::WrongEnd),
            Side::Client(end) => Ok(end.control()),
        }
    }

    /// Plans the next data packet where one may be sent, and notes the values that it asks for; gives how many these are. `None`
    /// where the next datagram asks for nothing.
    pub fn ask(&mut self, asks: &mut [Ask]) -> Result<Option<usize>, Refusal>
        ensures plans { IfOk result (λ found. IfSome found (λ count. Plans self.old (take count asks.new) self.new)) }
        ensures none { IfOk result (λ found. IsNone found → AsksNothing self.old self.new) }
        ensures unchanged { OnErr result (self.new ≡ self.old) }
        ensures refused { result_err result ≡ ask_refusal (length asks.old) self.old }
    {
        match &mut self.side {
            Side::Server(conn) => server::ask(conn, asks),
            Side::Client(_) => Ok(None),
        }
    }

    /// Makes the next datagram, with the values that `ask` asked for.
    pub fn pack(&mut self, values: &[i64], place: &mut [u8]) -> Result<Packed, Refusal>
        ensures data { (count : ℕ) → result ≡ Ok (Packed.Data count) → Sends self.old values.now (take count place.new) self.new }
        ensures ping { (count : ℕ) → result ≡ Ok (Packed.Ping count) → Pings self.old (take count place.new) self.new }
        ensures nothing { result ≡ Ok Packed.Nothing → SendsNothing self.old self.new }
        ensures unchanged { OnErr result (self.new ≡ self.old) }
        ensures refused { PackRefused values.now (length place.old) self.old (λ r. result_err result ≡ r) }
    {
        match &mut self.side {
            Side::Server(conn) => server::pack(conn, values, place),
            Side::Client(end) => client::pack(end, place),
        }
    }

    /// Takes a datagram, at the server where so many further moves have a place; gives how many moves it brought.
    pub fn arrive(&mut self, bytes: &[u8], room: u32) -> Result<u32, Refusal>
        ensures taken { IfOk result (λ moves. Takes self.old bytes.now room moves self.new) }
        ensures unchanged { OnErr result (self.new ≡ self.old) }
        ensures refused { ArrivalRefused bytes.now room self.old (λ r. result_err result ≡ r) }
    {
        match &mut self.side {
            Side::Server(conn) => server::arrive(conn, bytes, room),
            Side::Client(end) => client::arrive(end, bytes),
        }
    }

    /// Posts an event, and gives its number where it is guaranteed, else 0.
    pub fn post(&mut self, bytes: &[u8], class: Class) -> Result<u32, Refusal>
        ensures posted { OnOk result (Posts self.old class bytes.now self.new) }
        ensures number { class ≡ Guaranteed → IfOk result (IsNextEvent self.old) }
        ensures unchanged { OnErr result (self.new ≡ self.old) }
        ensures refused { PostRefused bytes.now class self.old (λ r. result_err result ≡ r) }
    {
        match &mut self.side {
            Side::Server(conn) => server::post(conn, bytes, class),
            Side::Client(end) => client::post(end, bytes, class),
        }
    }

    /// Hands out the oldest event that waits.
    pub fn pop(&mut self, place: &mut [u8]) -> Result<Option<Popped>, Refusal>
        ensures popped { IfOk result (λ found. IfSome found (λ p. Pops self.old p.class (take p.count place.new) self.new)) }
        ensures none { IfOk result (λ found. IsNone found → HasNoEvent self.old self.new) }
        ensures unchanged { OnErr result (self.new ≡ self.old) }
        ensures refused { result_err result ≡ room_refusal MAX_EVENT_BYTES (length place.old) }
    {
        match &mut self.side {
            Side::Server(conn) => server::pop(conn, place),
            Side::Client(end) => client::pop(end, place),
        }
    }

    /// Takes up the move that this number is, and gives the move's own number.
    pub fn sample(&mut self, bits: u64) -> Result<u32, Refusal>
        ensures told { IfOk result (λ n. Samples self.old bits n self.new) }
        ensures unchanged { OnErr result (self.new ≡ self.old) }
        ensures refused { SampleRefused bits self.old (λ r. result_err result ≡ r) }
    {
        match &mut self.side {
            Side::Server(_) => Err(Refusal::WrongEnd),
            Side::Client(end) => client::sample(end, bits),
        }
    }

    /// Lists the moves that the server has not told as accepted, the oldest first; gives how many these are.
    pub fn pending(&self, place: &mut [u64]) -> Result<u32, Refusal>
        ensures told { IfOk result (λ count. ListsPending self.now (take count place.new)) }
        ensures refused { result_err result ≡ at_client (λ c. room_refusal MAX_PACKET_MOVES (length place.old)) self.now }
    {
        match &self.side {
            Side::Server(_) => Err(Refusal::WrongEnd),
            Side::Client(end) => client::pending(end, place),
        }
    }

    /// Lists the moves that the last datagram brought; gives how many these are.
    pub fn moves(&self, place: &mut [u64]) -> Result<u32, Refusal>
        ensures told { IfOk result (λ count. ListsMoves self.now (take count place.new)) }
        ensures refused { result_err result ≡ at_server (moves_refusal (length place.old)) self.now }
    {
        match &self.side {
            Side::Server(conn) => server::moves(conn, place),
            Side::Client(_) => Err(Refusal::WrongEnd),
        }
    }

    /// Lists what became of the data packets that the last datagram judged; gives how many these are.
    pub fn verdicts(&self, place: &mut [Judged]) -> Result<u32, Refusal>
        ensures told { IfOk result (λ count. ListsVerdicts self.now (take count place.new)) }
        ensures refused { result_err result ≡ room_refusal MAX_UNJUDGED_PACKETS (length place.old) }
    {
        match &self.side {
            Side::Server(conn) => server::verdicts(conn, place),
            Side::Client(end) => client::verdicts(end, place),
        }
    }

    /// Hands over the bytes of a block, at the client of one that came; gives how many these are.
    pub fn block(&self, number: u32, place: &mut [u8]) -> Result<usize, Refusal>
        ensures told { IfOk result (λ count. HasBlock self.now number (take count place.new)) }
        ensures refused { BlockRefused number (length place.old) self.now (λ r. result_err result ≡ r) }
    {
        match &self.side {
            Side::Server(conn) => server::block(conn, number, place),
            Side::Client(end) => client::block(end, number, place),
        }
    }

    /// What the end counted.
    pub fn counts(&self) -> Counts
        ensures { AreCounts self.now result }
    {
        match &self.side {
            Side::Server(conn) => server::counts(conn),
            Side::Client(end) => client::counts(end),
        }
    }

    /// Lists what the last datagram did to the client's slots; gives how many items these are.
    pub fn changes(&self, place: &mut [Change]) -> Result<u32, Refusal>
        ensures told { IfOk result (λ count. ListsChanges self.now (take count place.new)) }
        ensures refused { result_err result ≡ at_client (λ c. room_refusal MAX_PACKET_GHOSTS (length place.old)) self.now }
    {
        match &self.side {
            Side::Server(_) => Err(Refusal::WrongEnd),
            Side::Client(end) => client::changes(end, place),
        }
    }

    /// The least slot from this one on that holds a copy; `None` where there is none.
    pub fn next_copy(&self, from: u32) -> Result<Option<u8>, Refusal>
        ensures told { IfOk result (IsNextCopy self.now from) }
        ensures refused { result_err result ≡ at_client (λ c. None) self.now }
    {
        match &self.side {
            Side::Server(_) => Err(Refusal::WrongEnd),
            Side::Client(end) => Ok(client::next_copy(end, from)),
        }
    }

    /// The copy in a slot, with the values of its fields.
    pub fn copy(&self, slot: u32, values: &mut [i64]) -> Result<Copied, Refusal>
        ensures told { IfOk result (λ copied. HasCopy self.now slot copied values.new) }
        ensures refused { CopyRefused slot (length values.old) self.now (λ r. result_err result ≡ r) }
    {
        match &self.side {
            Side::Server(_) => Err(Refusal::WrongEnd),
            Side::Client(end) => client::copy(end, slot, values),
        }
    }

    /// Tells a timeline what the packet that the client took last did to its slots (docs/timeline.md): copies that began, values that
    /// came, copies that are gone. Call it once after each datagram that was taken.
    pub fn tell(&self, timeline: &mut Timeline) -> Result<(), DrawFault>
        ensures told { OnOk result (HearsAt self.now timeline.old timeline.new) }
        ensures shape { OnOk result (KeepsShape timeline.old timeline.new) }
        ensures unchanged { OnErr result (timeline.new ≡ timeline.old) }
        ensures refused { HearingRefused timeline.old self.now (λ r. result_err result ≡ r) }
    {
        match &self.side {
            Side::Server(_) => Err(DrawFault::WrongEnd),
            Side::Client(end) => match drawing::tell(end, timeline) {
                Ok(()) => Ok(()),
                Err(refusal) => Err(DrawFault::Untold(refusal)),
            },
        }
    }
}

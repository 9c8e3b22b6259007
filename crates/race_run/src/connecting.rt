//! The connections of a match before its first line.
ghost use Rattle.std.specs.Prelude.{◌≡◌, ◌<◌, ◌+◌, ◌++◌, ◌∷◌, [], IfOk, OnOk, length};
ghost use Rattle.std.specs.List.{All};
ghost use Rattle.rtrb.specs.Ring.{received, sent, consumer_capacity, producer_capacity, IsPair};
ghost use Rattle.kept_pair.specs.Kept.{terms_in};
ghost use Rattle.match_script.specs.Ranges.{HeadFits};
ghost use Rattle.race_sim.specs.own_lists.Past.{client_terms};
ghost use Rattle.race_sim.specs.Ports.{IsNewPort};
ghost use Rattle.race_run.specs.Asking.{AreNumbered};

use connection_lock::{MAX_TAKEN_MESSAGES, SharedPair};
use dirty_lanes::{LaneName, PackSeat, PackSeats};
use kept_pair::KeptPair;
use match_script::Head;
use race_course::new_pair;
use race_messages::Message;
use race_sim::Port;
use rtrb::{Consumer, Producer, RingBuffer};
use std::alloc::Global;
use tn_types::{MoveBits, NoMemory};

// How many messages the ring to a connection has places for, and how many accepted moves the ring from it.
const INBOX_PLACES: usize = MAX_TAKEN_MESSAGES as usize;

const OUTBOX_PLACES: usize = 32;

/// The connections by client, and the simulation's ends of their rings.
#[derive(Drop)]
pub(crate) struct Connections<N: LaneName> {
    pub(crate) pairs: Vec<SharedPair<N>>,
    pub(crate) ports: Vec<Port>,
}

// The two rings of a connection: what the simulation puts into the first comes out at the inbox, and what the outbox takes comes
// back to the simulation.
#[derive(Drop)]
struct Rings {
    to_pair: Producer<Message>,
    inbox: Consumer<Message>,
    outbox: Producer<MoveBits>,
    from_pair: Consumer<MoveBits>,
}

// The rings of a connection, into which nothing was put.
fn new_rings(alloc: Global) -> Result<Rings, NoMemory>
    ensures inbox { IfOk result (λ r. IsPair r.to_pair r.inbox × (consumer_capacity r.inbox ≡ INBOX_PLACES)) }
    ensures outbox { IfOk result (λ r. IsPair r.outbox r.from_pair × (producer_capacity r.outbox ≡ OUTBOX_PLACES)) }
    ensures none_sent { IfOk result (λ r. (sent r.to_pair ≡ []) × (sent r.outbox ≡ [])) }
    ensures none_received { IfOk result (λ r. (received r.inbox ≡ []) × (received r.from_pair ≡ [])) }
{
    let Ok((to_pair, inbox)) = RingBuffer::new(alloc, INBOX_PLACES) else {
        return Err(NoMemory);
    };
    let Ok((outbox, from_pair)) = RingBuffer::new(alloc, OUTBOX_PLACES) else {
        return Err(NoMemory);
    };
    Ok(Rings {
        to_pair,
        inbox,
        outbox,
        from_pair,
    })
}

// Puts a connection under its lock. What lies there is known by its type alone, so what it is made with is asked for here: the terms
// of this header for the client of its seat, and rings of so many places.
fn share<N: LaneName>(
    alloc: Global,
    _head: &Head,
    pair: KeptPair,
    seat: PackSeat<N>,
    inbox: Consumer<Message>,
    outbox: Producer<MoveBits>,
) -> Result<SharedPair<N>, NoMemory>
    requires steps { pair.steps ≡ [] }
    requires terms { terms_in pair ≡ client_terms _head.now seat.client }
    requires seat { seat.steps ≡ [] }
    requires received { received inbox ≡ [] }
    requires inbox { consumer_capacity inbox ≡ INBOX_PLACES }
    requires sent { sent outbox ≡ [] }
    requires outbox { producer_capacity outbox ≡ OUTBOX_PLACES }
    ensures { IfOk result (λ pair. pair ≡ seat.client) }
{
    SharedPair::new(alloc, pair, seat, inbox, outbox)
}

// The connection of the client of this seat, at its ends of the rings.
fn new_shared<N: LaneName>(
    alloc: Global,
    head: &Head,
    seat: PackSeat<N>,
    inbox: Consumer<Message>,
    outbox: Producer<MoveBits>,
) -> Result<SharedPair<N>, NoMemory>
    requires head { HeadFits head.now }
    requires client { seat.client < head.now.clients }
    requires seat { seat.steps ≡ [] }
    requires received { received inbox ≡ [] }
    requires inbox { consumer_capacity inbox ≡ INBOX_PLACES }
    requires sent { sent outbox ≡ [] }
    requires outbox { producer_capacity outbox ≡ OUTBOX_PLACES }
    ensures { IfOk result (λ pair. pair ≡ seat.client) }
{
    let pair = new_pair(alloc, head, seat.client())?;
    share(alloc, head, pair, seat, inbox, outbox)
}

// Adds one to these.
fn add<T: Drop>(all: &mut Vec<T>, one: T) -> Result<(), NoMemory>
    ensures { OnOk result (all.new.items ≡ all.old.items ++ one ∷ []) }
{
    match all.push(one) {
        Ok(()) => Ok(()),
        Err(_) => Err(NoMemory),
    }
}

// Adds the connection of the next client, that of this seat.
fn connect_next<N: LaneName>(
    alloc: Global,
    head: &Head,
    seat: PackSeat<N>,
    made: &mut Connections<N>,
) -> Result<(), NoMemory>
    requires head { HeadFits head.now }
    requires client { seat.client < head.now.clients }
    requires next { seat.client ≡ length made.old.pairs.items }
    requires seat { seat.steps ≡ [] }
    requires fresh { All IsNewPort made.old.ports.items }
    ensures pairs { OnOk result (made.new.pairs.items ≡ made.old.pairs.items ++ seat.client ∷ []) }
    ensures ports { OnOk result (length made.new.ports.items ≡ length made.old.ports.items + 1) }
    ensures fresh { OnOk result (All IsNewPort made.new.ports.items) }
{
    let Rings {
        to_pair,
        inbox,
        outbox,
        from_pair,
    } = new_rings(alloc)?;
    let port = Port::new(alloc, to_pair, from_pair)?;
    add(&mut made.ports, port)?;
    let pair = new_shared(alloc, head, seat, inbox, outbox)?;
    add(&mut made.pairs, pair)?;
    Ok(())
}

// Adds the connection of each client.
fn connect_all<N: LaneName>(
    alloc: Global,
    head: &Head,
    seats: &mut PackSeats<N>,
    made: &mut Connections<N>,
) -> Result<(), NoMemory>
    requires head { HeadFits head.now }
    requires seats { seats.old.next ≡ 0 }
    requires clients { seats.old.clients ≡ head.now.clients }
    requires empty { (made.old.pairs.items ≡ []) × (made.old.ports.items ≡ []) }
    ensures pairs { OnOk result (length made.new.pairs.items ≡ head.now.clients) }
    ensures numbered { OnOk result (AreNumbered made.new.pairs.items) }
    ensures ports { OnOk result (length made.new.ports.items ≡ head.now.clients) }
    ensures fresh { OnOk result (All IsNewPort made.new.ports.items) }
{
    for _ in 0..head.clients {
        let Some(seat) = seats.next_seat() else {
            unreachable!()
        };
        connect_next(alloc, head, seat, made)?;
    }
    Ok(())
}

/// The connection of each client.
pub(crate) fn connect<N: LaneName>(
    alloc: Global,
    head: &Head,
    seats: PackSeats<N>,
) -> Result<Connections<N>, NoMemory>
    requires head { HeadFits head.now }
    requires seats { seats.next ≡ 0 }
    requires clients { seats.clients ≡ head.now.clients }
    ensures pairs { IfOk result (λ c. length c.pairs.items ≡ head.now.clients) }
    ensures numbered { IfOk result (λ c. AreNumbered c.pairs.items) }
    ensures ports { IfOk result (λ c. length c.ports.items ≡ head.now.clients) }
    ensures fresh { IfOk result (λ c. All IsNewPort c.ports.items) }
{
    let mut seats = seats;
    let mut made = Connections {
        pairs: Vec::new(alloc),
        ports: Vec::new(alloc),
    };
    connect_all(alloc, head, &mut seats, &mut made)?;
    Ok(made)
}

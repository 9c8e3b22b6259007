//! What is counted while a match is hosted.

use match_report::Told;
use net_serve::Watch;
use std::cell::Cell;
use std::fmt;
use stream_manager::ArriveFault;

/// The places of counts of refused arrivals, by name.
const REFUSALS: [&str; 6] = ["bits", "client", "old", "ackahead", "movegap", "eventahead"];

/// What is counted while a match is hosted. Link, clock and who looks on count here, so each call takes it as shared.
#[derive(Drop)]
pub struct Counters {
    clients: Cell<u64>,
    came: Cell<u64>,
    bytes_came: Cell<u64>,
    sent: Cell<u64>,
    bytes_sent: Cell<u64>,
    asked: Cell<u64>,
    turned: Cell<u64>,
    untagged: Cell<u64>,
    unsent: Cell<u64>,
    late: Cell<u64>,
    refused: Cell<[u64; REFUSALS.len()]>,
}

/// Adds to a count.
fn add(count: &Cell<u64>, more: u64) {
    count.set(count.get().saturating_add(more));
}

/// The place of a refusal's name.
fn place_of(fault: ArriveFault) -> usize {
    match fault {
        ArriveFault::Bits(_) => 0,
        ArriveFault::WrongClient { client: _ } => 1,
        ArriveFault::Old { seq: _, horizon: _ } => 2,
        ArriveFault::AckAhead {
            horizon: _,
            last: _,
        } => 3,
        ArriveFault::MoveGap {
            first: _,
            accepted: _,
        } => 4,
        ArriveFault::EventAhead {
            number: _,
            delivered: _,
        } => 5,
    }
}

impl Counters {
    /// Nothing was counted.
    pub fn new() -> Counters {
        Counters {
            clients: Cell::new(0),
            came: Cell::new(0),
            bytes_came: Cell::new(0),
            sent: Cell::new(0),
            bytes_sent: Cell::new(0),
            asked: Cell::new(0),
            turned: Cell::new(0),
            untagged: Cell::new(0),
            unsent: Cell::new(0),
            late: Cell::new(0),
            refused: Cell::new([0; REFUSALS.len()]),
        }
    }

    /// A datagram of so many bytes came.
    pub(crate) fn note_came(&self, bytes: u64) {
        add(&self.came, 1);
        add(&self.bytes_came, bytes);
    }

    /// A datagram of so many bytes went out.
    pub(crate) fn note_sent(&self, bytes: u64) {
        add(&self.sent, 1);
        add(&self.bytes_sent, bytes);
    }

    /// A greeting was answered.
    pub(crate) fn note_asked(&self) {
        add(&self.asked, 1);
    }

    /// A datagram of a stranger was dropped.
    pub(crate) fn note_turned(&self) {
        add(&self.turned, 1);
    }

    /// A datagram was dropped that has not its tag.
    pub(crate) fn note_untagged(&self) {
        add(&self.untagged, 1);
    }

    /// The system did not send a datagram.
    pub(crate) fn note_unsent(&self) {
        add(&self.unsent, 1);
    }

    /// A turn was late.
    pub(crate) fn note_late(&self) {
        add(&self.late, 1);
    }

    /// A client was given.
    pub(crate) fn note_client(&self) {
        add(&self.clients, 1);
    }

    fn note_refused(&self, fault: ArriveFault) {
        let mut counts = self.refused.get();
        if let Some(count) = counts.get_mut(place_of(fault)) {
            *count = count.saturating_add(1);
        }
        self.refused.set(counts);
    }
}

impl Watch for &Counters {
    fn arrived(&mut self, _client: u8, told: &Told) {
        if let Told::ServerRefused {
            way: _,
            client: _,
            k: _,
            fault,
        } = told
        {
            self.note_refused(*fault);
        }
    }
}

impl fmt::Display for Counters {
    fn fmt<W: fmt::Write>(&self, f: &mut fmt::Formatter<W>) -> fmt::Result {
        let (clients, late) = (self.clients.get(), self.late.get());
        let (came, bytes_came) = (self.came.get(), self.bytes_came.get());
        let (sent, bytes_sent) = (self.sent.get(), self.bytes_sent.get());
        let (asked, turned) = (self.asked.get(), self.turned.get());
        let (untagged, unsent) = (self.untagged.get(), self.unsent.get());
        write!(
            f,
            "clients {clients} late {late} in {came} {bytes_came} out {sent} {bytes_sent}"
        )?;
        write!(
            f,
            " asked {asked} turned {turned} untagged {untagged} unsent {unsent} refused"
        )?;
        let counts = self.refused.get();
        for (name, count) in REFUSALS.iter().zip(counts.iter()) {
            write!(f, " {name} {count}")?;
        }
        Ok(())
    }
}

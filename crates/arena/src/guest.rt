//! The client's side: the end of the connection, and what is to be drawn.

use crate::game::{config, kinds};
use std::alloc::Global;
use stream_manager::{Client, ClientFault, ClientOut};
use tn_types::{Class, MAX_READ_BYTES, Move, Payload};
use wire_format::GhostItem;

/// The client's side.
#[derive(Drop)]
pub struct Guest {
    client: Client,
}

/// An object as the client draws it: its kind, the values of its fields, and whether it is the client's own.
#[derive(Clone, Copy)]
pub struct Seen {
    pub kind: u8,
    pub values: [i64; 3],
    pub own: bool,
}

impl Guest {
    /// The client's end of a new connection, made with the same configuration and kinds as the server's.
    pub fn new(alloc: Global) -> Result<Guest, &'static str> {
        let Ok(config) = config() else {
            return Err("the configuration is out of its ranges");
        };
        let Ok(kinds) = kinds() else {
            return Err("the kinds make no table");
        };
        let Ok(client) = Client::new(alloc, config, &kinds) else {
            return Err("memory was not to be had");
        };
        Ok(Guest { client })
    }

    /// Takes up what the player does in this turn: steps of -8 to 7.
    pub fn drive(&mut self, m: Move) -> Result<(), &'static str> {
        match self.client.sample(m) {
            Ok(_number) => Ok(()),
            Err(_) => Err("the server lacks 32 moves, or the connection's life is over"),
        }
    }

    /// Posts an event that may be lost.
    pub fn wave(&mut self) {
        if let Some(payload) = Payload::from_slice(b"hello") {
            let _dropped = self.client.post_loose(payload);
        }
    }

    /// Makes the next datagram at the beginning of the place, and gives how many bytes it has.
    pub fn tell(&mut self, place: &mut [u8]) -> Option<usize> {
        let bytes = match self.client.pack() {
            ClientOut::Body(bytes) => bytes,
            ClientOut::Ping(bytes) => bytes,
            ClientOut::Worn { .. } => return None,
        };
        place.get_mut(..bytes.len())?.copy_from_slice(bytes);
        Some(bytes.len())
    }

    /// Takes a datagram that came, or says why it was refused and changed nothing.
    pub fn hear(&mut self, datagram: &[u8]) -> Option<Result<(), ClientFault>> {
        if datagram.len() > MAX_READ_BYTES || self.client.waiting() > 0 {
            return None;
        }
        Some(self.client.arrive(datagram))
    }

    /// The next event of the server.
    pub fn pop(&mut self) -> Option<(Class, Payload)> {
        self.client.pop_event()
    }

    /// The object in a slot, if a copy is there, to be drawn.
    pub fn seen(&self, slot: u8) -> Option<Seen> {
        let copies = self.client.copies();
        let mut values = [0; 3];
        for field in 0..3u8 {
            if let Some(value) = copies.value(slot, field) {
                values[field as usize] = value;
            }
        }
        Some(Seen {
            kind: copies.get(slot)?.kind,
            values,
            own: self.client.control() == Some(slot),
        })
    }

    /// How many objects came into sight by the last datagram.
    pub fn came_into_sight(&self) -> usize {
        let mut count = 0usize;
        for item in self.client.changes() {
            if let GhostItem::Create { .. } = item {
                count = count.saturating_add(1);
            }
        }
        count
    }
}

//! Datagrams: what they are made of, how they are written and how they are read.
//!
//! Each packet has exactly one spelling, part by part (docs/wire.md, "Datagrams"). The encoders
//! write it, and the decoders read it back or name the first fault and the bit at which the faulty
//! part begins. No call takes memory.
#![tactic(auto)]

mod blocks;
mod client;
mod events;
mod fault;
mod ghost_reading;
mod ghosts;
mod header;
mod held;
mod items;
mod laws;
mod lists;
mod moves;
mod parts;
mod said;
mod server;
mod widths;
mod wire;

pub use blocks::{BlockItem, BlockList, block_bits, put_block, put_block_count, put_blocks};
pub use client::{
    ClientBody, ClientPacket, client_bits, client2_bits, decode_client, decode_client_into,
    decode_client2, encode_client, encode_client2, put_client_front,
};
pub use events::{EventItem, EventList, event_bits, put_event, put_event_count, put_events};
pub use fault::{BitsCause, BitsFault};
pub use ghosts::{
    GhostItem, GhostList, Levels, ghost_bits, put_ghost, put_ghost_count, put_ghosts, update_front,
};
pub use header::{Header, put_ping, server_head};
pub use held::HeldKinds;
pub use laws::{low_numbers_are_spelled, old_moves_stand, packets_are_parts, sizes_are_bits};
pub use lists::ItemList;
pub use moves::{MoveList, is_move, move_width, put_move, put_move_count, put_moves};
pub use server::{
    ServerBody, ServerPacket, decode_server, decode_server_into, decode_server2, encode_server,
    encode_server2, put_server_front, server_bits, server2_bits,
};
pub use widths::{
    BLOCK_COUNT_WIDTH, CLIENT_FIXED_BITS, CREATE_BITS, EVENT_COUNT_WIDTH, GHOST_COUNT_WIDTH,
    HEADER_BITS, KILL_BITS, LOW_NUMBERS, MAX_BLOCK_BITS, MAX_EVENT_BITS, MAX_GHOST_BITS, MOVE_BITS,
    MOVE_COUNT_WIDTH, SERVER_FIXED_BITS, UPDATE_BITS, kind_width,
};
pub use wire::Wire;

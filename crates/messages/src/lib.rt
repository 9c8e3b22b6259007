//! Messages of any length over guaranteed events: whole or not at all.
//!
//! A short event or a message is cut into pieces, each of which is one guaranteed event of a connection; the other end gathers
//! them and hands out what is whole. The rules are those of docs/messages.md. Nothing after `new` takes memory.
#![tactic(auto)]

mod cutting;
mod faults;
mod form;
mod inbox;
mod laws;
mod limits;
mod outbox;
mod single;

pub use faults::{HoldFault, PieceFault, SmallPlace};
pub use form::{Form, ParcelKind};
pub use inbox::{Inbox, Stage, Whole};
pub use laws::{
    honest_pieces_are_taken, messages_cost_little, messages_in_order, parcels_follow_from_pieces,
};
pub use limits::{FIRST_BYTES, MAX_MESSAGE_BYTES, MAX_SINGLE_BYTES};
pub use outbox::Outbox;
pub use single::{loose_parcel, loose_piece};

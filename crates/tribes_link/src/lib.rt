//! Both ends of a connection for programs in other languages: `include/tribes.h` declares the same in C, and says what a caller
//! owes.
//!
//! Each call takes the end out of its handle, does its part by `tribes_ends`, which tests each number, and puts the end back.
#![tactic(auto)]

mod answering;
mod channel_handle;
mod channels;
mod clocks;
mod datagrams;
mod door_handle;
mod door_rows;
mod doors;
mod drawing;
mod end;
mod events;
mod held;
mod held_channel;
mod held_door;
mod held_quality;
mod held_timeline;
mod joining_codes;
mod keys;
mod knocks;
mod making;
mod meters;
mod objects;
mod offsets;
mod presences;
mod protocols;
mod qualities;
mod quality_handle;
mod rates;
mod telling;
mod timeline_answers;
mod timeline_handle;

pub use channel_handle::{ChannelHandle, OPEN_CHANNEL};
pub use channels::{
    tribes_channel_counts, tribes_channel_free, tribes_channel_open, tribes_channel_why,
    tribes_message, tribes_post_message,
};
pub use clocks::{tribes_clock_came, tribes_clock_moment, tribes_clock_start};
pub use datagrams::{tribes_arrive, tribes_pack, tribes_plan};
pub use door_handle::{DoorHandle, OPEN_DOOR};
pub use door_rows::{AddressRow, DoorTerms, GreetingRow, SecretRow};
pub use doors::{
    tribes_door_accept, tribes_door_free, tribes_door_hear, tribes_door_leave, tribes_door_open,
    tribes_door_refuse, tribes_door_renew,
};
pub use drawing::{
    tribes_timeline_began, tribes_timeline_came, tribes_timeline_ended, tribes_timeline_kind,
    tribes_timeline_take, tribes_timeline_value,
};
pub use end::{End, OPEN};
pub use events::{tribes_event, tribes_moves, tribes_pending, tribes_post, tribes_sample};
pub use keys::{KeyRow, tribes_tag, tribes_verify};
pub use knocks::{KnockRow, tribes_knock_hear, tribes_knock_write};
pub use making::{tribes_client, tribes_free, tribes_server, tribes_version, tribes_why};
pub use meters::{tribes_meter_told, tribes_meter_went};
pub use objects::{
    Object, tribes_changed, tribes_control, tribes_hide, tribes_near, tribes_settled, tribes_show,
    tribes_slot,
};
pub use offsets::{OffsetRow, tribes_offset_corrected, tribes_offset_faded, tribes_offset_value};
pub use presences::{
    tribes_presence_alive, tribes_presence_came, tribes_presence_leave, tribes_presence_say,
    tribes_presence_start,
};
pub use protocols::{ProtocolRow, tribes_protocol};
pub use qualities::{
    QualityRow, tribes_quality_free, tribes_quality_judged, tribes_quality_open,
    tribes_quality_sent, tribes_quality_told,
};
pub use quality_handle::{OPEN_QUALITY, QualityHandle};
pub use rates::{
    tribes_rate_allowed, tribes_rate_came, tribes_rate_lost, tribes_rate_start, tribes_rate_wait,
    tribes_rate_went,
};
pub use telling::{
    tribes_block, tribes_changes, tribes_copy, tribes_counts, tribes_next_copy, tribes_verdicts,
};
pub use timeline_handle::{
    OPEN_TIMELINE, ShapeRow, TimelineHandle, WayRow, tribes_timeline_free, tribes_timeline_open,
};

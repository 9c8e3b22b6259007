//! Both ends of a connection for callers that can promise nothing: each number, length, list and order of calls is tested, and
//! what may not be done answers its refusal and changes nothing.
#![tactic(auto)]

mod asking;
mod client;
mod counts;
mod drawing;
mod handing;
mod laws;
mod link;
mod refusal;
mod rows;
mod server;
mod tables;
mod why;

pub use asking::Ask;
pub use counts::Counts;
pub use drawing::{DrawFault, LEAST_VALUE, MOST_VALUE};
pub use handing::Popped;
pub use laws::accepted_moves_change_nothing;
pub use link::{Link, Packed, Side};
pub use refusal::Refusal;
pub use rows::{Change, Copied, Judged};
pub use tables::{ConfigRow, FieldRow, KindRow, config, kind_table};
pub use tn_types::Class;
pub use why::Why;

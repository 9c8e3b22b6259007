//! A command over a link, a clock and a sink.

use commands::{Command, command_of};
use net_top::{Offer, top_join, top_serve};
use script_input::Status;
use std::alloc::Global;
use tn_outside::{Clock, Link, Sink};

// Carries out a command over a link, a clock and a sink.
pub(crate) fn carry_out<L: Link, C: Clock, K: Sink>(
    alloc: Global,
    words: &Vec<String>,
    link: &mut L,
    clock: &mut C,
    sink: &mut K,
) -> Status {
    match command_of(words) {
        Ok(
            Command::Serve {
                seed,
                clients,
                turns,
            },
        ) => top_serve(
            alloc,
            Offer {
                seed,
                clients,
                turns,
            },
            link,
            clock,
            sink,
        ),
        Ok(Command::Join { turns }) => top_join(alloc, turns, link, clock, sink),
        Ok(_) => Status::Usage(0),
        Err(place) => Status::Usage(place),
    }
}

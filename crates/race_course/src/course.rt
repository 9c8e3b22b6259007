//! The course of a script.
ghost use Rattle.std.specs.Prelude.{◌≡◌, ℕ, ◌<◌, Some, IfOk, length, reverse, slice_get};
ghost use Rattle.match_script.specs.Ranges.{HasRanges};
ghost use Rattle.race_history.specs.Moves.{MovesFit};
ghost use Rattle.race_course.specs.Messages.{ticks_in};
ghost use Rattle.race_course.specs.Course.{IsCourseOf, IsMadeOf, world_of};

use crate::client::ClientCourse;
use crate::making::Making;
use match_script::Script;
use race_history::{History, TickMoves};
use race_messages::Message;
use std::alloc::Global;
use std::marker::Model;
use tn_types::NoMemory;

/// What a script and the moves of its ticks make: the values by version, and the messages of each client.
#[derive(Drop)]
pub struct Course {
    history: History,
    clients: Vec<ClientCourse>,
}

impl Model for Course {
    ghost use Rattle.race_course.specs.Course.{CourseState, messages_of};

    ghost Value = { CourseState };

    ghost view = { λ a. record {
      values = a.history;
      messages = messages_of a.clients.items;
    } };
}

// All lines of a script, followed.
fn followed(alloc: Global, script: &Script, moves: &TickMoves) -> Result<Making, NoMemory>
    requires ranges { HasRanges script.now }
    requires moves { MovesFit (ticks_in script.now.body) script.now.head.clients moves.now }
    ensures { IfOk result (λ m. IsMadeOf m (world_of script.now) moves.now script.now.head.clients (reverse script.now.body)) }
{
    let mut making = Making::new(alloc, &script.head)?;
    for line in script.body.as_slice() {
        making.follow(alloc, line, moves)?;
    }
    Ok(making)
}

impl Course {
    /// Makes the worlds of a script with these moves of its ticks, and with them the values of all fields and the messages of each
    /// client. `moves_fit` tests whether there are moves for each tick.
    pub fn new(alloc: Global, script: &Script, moves: &TickMoves) -> Result<Course, NoMemory>
        requires ranges { HasRanges script.now }
        requires moves { MovesFit (ticks_in script.now.body) script.now.head.clients moves.now }
        ensures { IfOk result (λ course. IsCourseOf course script.now moves.now) }
    {
        let made = followed(alloc, script, moves)?;
        Ok(Course {
            history: made.history,
            clients: made.clients,
        })
    }

    /// The values by version.
    pub fn history(&self) -> &History
        ensures { result.now ≡ self.now.values }
    {
        &self.history
    }

    /// The messages of a client, in the order of the script.
    pub fn messages(&self, client: u8) -> &[Message]
        requires { client < length self.now.messages }
        ensures { Some result.now ≡ slice_get self.now.messages client }
    {
        self.clients[client as usize].messages()
    }
}

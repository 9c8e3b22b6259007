//! What either end tells of the packets that it sent and took and of the places that are free, and what a client tells of its moves and
//! of the packet that came last.
ghost use Rattle.std.specs.Prelude.{◌≡◌, ◌+◌, ◌<◌, ◌≤◌, IsNone};
ghost use Rattle.std.specs.Option.{option_copied};
ghost use Rattle.notify_window.specs.Log.{sent_of};
ghost use Rattle.event_manager.specs.Receiving.{run_of};
ghost use Rattle.datablocks.specs.Holding.{held_of};
ghost use Rattle.move_manager.specs.Sending.{pending_of};
ghost use Rattle.stream_manager.specs.End.{window_log, judged_at, came_of, event_places, loose_places, last_taken_of};
ghost use Rattle.stream_manager.specs.Verdicts.{last_verdicts};
ghost use Rattle.stream_manager.specs.Changes.{changes_at};

use crate::{Client, Conn, Verdicts};
use tn_types::{BlockBytes, MAX_BLOCKS, MAX_UNACKNOWLEDGED_MOVES};
use wire_format::{GhostItem, MoveList};

impl Conn {
    ghost use Rattle.stream_manager.specs.Server.{server_end};
    ghost use Rattle.stream_manager.specs.ConnCalls.{Answers};

    /// The number of the last data packet that was sent, 0 where none was: so many were sent.
    pub fn sent(&self) -> u32
        ensures { Answers self.now (λ log. sent_of (window_log (server_end log))) result }
    {
        self.common.sent()
    }

    /// The least number of a data packet that has no verdict, of those sent and to be sent. So all from it on to the last
    /// one that was sent have none.
    pub fn unjudged(&self) -> u32
        ensures { Answers self.now (λ log. judged_at (server_end log) + 1) result }
    {
        self.common.unjudged()
    }

    /// How many guaranteed events were delivered, those that wait included.
    pub fn delivered(&self) -> u32
        ensures { Answers self.now (λ log. run_of (came_of (server_end log))) result }
    {
        self.common.delivered()
    }

    /// The number of the data packet that was taken last; `None` exactly where none was. A refused arrival leaves it, and so does a
    /// ping.
    pub fn last_taken(&self) -> Option<u32>
        ensures { Answers self.now (λ log. last_taken_of (server_end log)) result }
    {
        self.common.last_taken()
    }

    /// How many places are free for guaranteed events: 256 less those unacknowledged. While there are some, a post is not `Full`.
    pub fn event_places(&self) -> u32
        ensures { Answers self.now (λ log. event_places (server_end log)) result }
    {
        self.common.event_places()
    }

    /// How many places are free for unguaranteed events: 64 less those that wait. While there are some, a post drops none.
    pub fn loose_places(&self) -> u32
        ensures { Answers self.now (λ log. loose_places (server_end log)) result }
    {
        self.common.loose_places()
    }

    /// The packets that the last arrival judged, by rising number, each received or lost. There are none where it brought no
    /// verdict. A refused arrival leaves them.
    pub fn verdicts(&self) -> &Verdicts
        ensures { Answers self.now (λ log. last_verdicts (server_end log)) result.now }
    {
        self.common.verdicts()
    }
}

impl Client {
    ghost use Rattle.stream_manager.specs.Client.{client_end, sample_log, acked_at, move_places, blocks_came};
    ghost use Rattle.stream_manager.specs.ClientCalls.{Answers};

    /// The number of the last data packet that was sent, 0 where none was: so many were sent.
    pub fn sent(&self) -> u32
        ensures { Answers self.now (λ log. sent_of (window_log (client_end log))) result }
    {
        self.common.sent()
    }

    /// The least number of a data packet that has no verdict, of those sent and to be sent. So all from it on to the last
    /// one that was sent have none.
    pub fn unjudged(&self) -> u32
        ensures { Answers self.now (λ log. judged_at (client_end log) + 1) result }
    {
        self.common.unjudged()
    }

    /// The number of the data packet that was taken last; `None` exactly where none was. A refused arrival leaves it, and so does a
    /// ping.
    pub fn last_taken(&self) -> Option<u32>
        ensures { Answers self.now (λ log. last_taken_of (client_end log)) result }
    {
        self.common.last_taken()
    }

    /// How many places are free for guaranteed events: 256 less those unacknowledged. While there are some, a post is not `Full`.
    pub fn event_places(&self) -> u32
        ensures { Answers self.now (λ log. event_places (client_end log)) result }
    {
        self.common.event_places()
    }

    /// How many places are free for unguaranteed events: 64 less those that wait. While there are some, a post drops none.
    pub fn loose_places(&self) -> u32
        ensures { Answers self.now (λ log. loose_places (client_end log)) result }
    {
        self.common.loose_places()
    }

    /// The packets that the last arrival judged, by rising number, each received or lost. There are none where it brought no
    /// verdict. A refused arrival leaves them.
    pub fn verdicts(&self) -> &Verdicts
        ensures { Answers self.now (λ log. last_verdicts (client_end log)) result.now }
    {
        self.common.verdicts()
    }

    /// What the packet that was taken last did to slots, in its order: each item creates a copy, updates fields of one, or
    /// kills it. There is nothing where that packet was a ping. A refused arrival leaves it.
    pub fn changes(&self) -> &[GhostItem]
        ensures value { result.now ≡ self.now.changes }
        ensures log { Answers self.now changes_at result.now }
    {
        self.took.ghosts.as_slice()
    }

    /// The bytes of the block that came for this number; `None` exactly where none came. No block has a number from 64 on.
    pub fn block(&self, number: u8) -> Option<&BlockBytes>
        ensures told { number < MAX_BLOCKS → Answers self.now (λ log. held_of number (blocks_came log)) (option_copied result) }
        ensures none { MAX_BLOCKS ≤ number → IsNone result }
    {
        self.blocks.get(number)
    }

    /// The number of the first move that the server has not told as accepted, and all sampled moves from it on, the oldest
    /// first: those that a prediction plays again.
    pub fn pending(&self) -> (u32, &MoveList)
        ensures { Answers self.now (λ log. pending_of (sample_log log)) (result.0, result.1.now) }
    {
        self.moves.pending()
    }

    /// How many moves the server told that it has accepted: the most that a packet of it told.
    pub fn accepted(&self) -> u32
        ensures { Answers self.now acked_at result }
    {
        let (first, _) = self.moves.pending();
        first
    }

    /// How many places are free for moves: 32 less those that the server may lack. While there are some, a move is not refused as
    /// `Full`.
    pub fn move_places(&self) -> u32
        ensures { Answers self.now move_places result }
    {
        let (_, waiting) = self.moves.pending();
        (MAX_UNACKNOWLEDGED_MOVES - waiting.len()) as u32
    }
}

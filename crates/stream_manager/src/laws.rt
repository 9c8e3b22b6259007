//! Laws of what happened at an end.
ghost use Rattle.std.specs.Prelude.{List};
ghost use Rattle.stream_manager.specs.Client.{ClientEvent};
ghost use Rattle.stream_manager.specs.Packets.{ShowsAlike};

/// What a client shows depends on the packets that it took alone: its horizon, blocks, copies, control slot and delivered
/// events are those of its packets. So a viewer that is given the same packets shows the same.
pub fn packets_show_what_a_client_shows()
    ensures { (log : List ClientEvent) → ShowsAlike log }
{}

//! The laws.
ghost use Rattle.std.specs.Prelude.{◌≡◌, ℕ, List, ◌++◌};
ghost use Rattle.tn_types.specs.declared.choices.Class.TheVariants.{Guaranteed};
ghost use Rattle.messages.specs.OutboxStands.{OutboxEvent, HandedOn, handed_on, posted_of};
ghost use Rattle.messages.specs.InboxStands.{InboxEvent, Took, took_of, handed_out};
ghost use Rattle.pair_laws.specs.Laws.{Always, posted_at};
ghost use Rattle.tribes_channel.specs.Channel.{after_each};
ghost use Rattle.stream_manager.specs.Server as server;
ghost use Rattle.stream_manager.specs.Server.{ServerEvent, server_end};
ghost use Rattle.stream_manager.specs.Client as client;
ghost use Rattle.stream_manager.specs.Client.{ClientEvent, client_end};
ghost use Rattle.message_laws.specs.Laws.{ArriveDown, ArriveUp};

use messages::messages_in_order;
use pair_laws::{acknowledged_is_delivered, delivers_in_order};

/// If an end's guaranteed events are what left its outbox, and the other end's inbox took them as they were delivered, the parcels that
/// were handed out are the first ones that were posted, byte for byte, and so is the one that waits. If all came and nothing is held,
/// all that was posted was handed out or waits; so it is if nothing is held, each event is acknowledged, and the inbox took what was
/// delivered. Both ways, whatever the network did.
pub fn messages_over_a_connection()
    ensures down { Always ArriveDown }
    ensures up { Always ArriveUp }
{
    delivers_in_order();
    acknowledged_is_delivered();
    messages_in_order();
}

/// What a channel does keeps its outbox in step with its end: the pieces that leave are the guaranteed events that are posted; and
/// its inbox takes what was delivered, one behind the other.
pub fn channels_keep_in_step()
    ensures leave { (pieces : List (List ℕ)) (log : List OutboxEvent) →
        handed_on (after_each HandedOn pieces log) ≡ handed_on log ++ pieces }
    ensures none_posted { (pieces : List (List ℕ)) (log : List OutboxEvent) → posted_of (after_each HandedOn pieces log) ≡ posted_of log }
    ensures server { (pieces : List (List ℕ)) (log : List ServerEvent) →
        posted_at (server_end (after_each (server.Posted Guaranteed) pieces log)) ≡ posted_at (server_end log) ++ pieces }
    ensures client { (pieces : List (List ℕ)) (log : List ClientEvent) →
        posted_at (client_end (after_each (client.Posted Guaranteed) pieces log)) ≡ posted_at (client_end log) ++ pieces }
    ensures taken { (pieces : List (List ℕ)) (log : List InboxEvent) → took_of (after_each Took pieces log) ≡ took_of log ++ pieces }
    ensures none_handed { (pieces : List (List ℕ)) (log : List InboxEvent) → handed_out (after_each Took pieces log) ≡ handed_out log }
{}

//! What a viewer and a client have in common.
ghost use Rattle.std.specs.Prelude.{ℕ, List};
ghost use Rattle.quantised_fields.specs.declared.kind.Kind.{Kind};
ghost use Rattle.stream_manager.specs.declared.config.Config.{Config};
ghost use Rattle.stream_manager.specs.Client.{ClientEvent};
ghost use Rattle.demo_view.specs.Laws.{TakesWithClient};

/// Bytes that a client takes are taken by a viewer that took what the client took before, as the same packet. What a client
/// shows is what its packets show ([`packets_show_what_a_client_shows`](stream_manager::packets_show_what_a_client_shows)), so
/// the viewer shows what the client shows.
pub fn client_packets_are_viewed()
    ensures { (c : Config) (kinds : List Kind) (log : List ClientEvent) (bytes : List ℕ) → TakesWithClient c kinds log bytes }
{}

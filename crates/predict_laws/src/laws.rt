//! What a prediction promises of the server.
ghost use Rattle.predict_laws.specs.Promise.{ValueIsServers};

/// At every line, the server has the x, y and ammo that an honest client predicts of its player, where the packet that came last told
/// what the server had at its pack, no accepted move waited then, the player stood in every tick since, and ticks took all moves that
/// the client sampled (docs/prediction.md, "The server has it").
pub fn value_is_servers()
    ensures { ValueIsServers }
{}

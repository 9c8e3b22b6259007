//! Events that a delivery hands out.
ghost use Rattle.std.specs.Prelude.{◌≡◌, []};
ghost use Rattle.kept_pair.specs.Kept.{terms_in};

use crate::pair::KeptPair;

// Drops the events that wait at the client.
fn drop_client_events(pair: &mut KeptPair)
    ensures none { pair.new.pair.client.common.receiver.ready ≡ [] }
    ensures server { pair.new.pair.conn ≡ pair.old.pair.conn }
    ensures steps { pair.new.steps ≡ pair.old.steps }
{
    // the bound of their number
    let _waiting = pair.pair().client_waiting();
    'out: while pair.pop_client_event().is_some() {}
}

// Drops the events that wait at the server.
fn drop_server_events(pair: &mut KeptPair)
    ensures none { pair.new.pair.conn.common.receiver.ready ≡ [] }
    ensures client { pair.new.pair.client ≡ pair.old.pair.client }
    ensures steps { pair.new.steps ≡ pair.old.steps }
    ensures terms { terms_in pair.new ≡ terms_in pair.old }
{
    // the bound of their number
    let _waiting = pair.pair().server_waiting();
    'out: while pair.pop_server_event().is_some() {}
}

impl KeptPair {
    /// Drops all events that wait, at either end.
    pub fn drop_events(&mut self)
        ensures client { self.new.pair.client.common.receiver.ready ≡ [] }
        ensures server { self.new.pair.conn.common.receiver.ready ≡ [] }
        ensures steps { self.new.steps ≡ self.old.steps }
        ensures terms { terms_in self.new ≡ terms_in self.old }
    {
        drop_client_events(self);
        drop_server_events(self);
    }
}

//! No datagram is raw under a key.
ghost use Rattle.keyed_laws.specs.Keyed.{NothingIsRaw};

/// Whatever datagrams come to both ends under a key: where each that carries a right tag is one that the other end made, all that happened
/// is what honest steps do. So each law of honest ends holds.
pub fn nothing_is_raw()
    ensures { NothingIsRaw }
{}

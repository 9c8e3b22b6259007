//! What a link has of a socket.
ghost use Rattle.std.specs.Prelude.{◌≤◌, List, length, Option, IfOk, IfSome};
ghost use Rattle.host_guests.specs.Passing.{Passing, Goes, Comes};

use greeting::Address;
use tn_outside::Failed;

/// Datagrams from addresses, and to them.
pub trait Socket {
    /// What came and what went, the newest first, where it is told.
    ghost log: { Self → Option (List Passing) };

    /// Sends a datagram to an address, and answers whether the system took it.
    fn send(&mut self, to: Address, bytes: &[u8]) -> bool
        ensures goes { Goes (log self.old) (log self.new) result to bytes.now };

    /// Gives the datagram that stands first in the front of a buffer, cut to its length: from where, and how many bytes. None only where
    /// nothing stood ready. A socket of the system may rest before it says so, for at most `rest` milliseconds.
    fn receive(&mut self, buf: &mut [u8], rest: u64) -> Result<Option<(Address, usize)>, Failed>
        ensures bound { IfOk result (λ answer. IfSome answer (λ x. x.1 ≤ length buf.new)) }
        ensures comes { Comes (log self.old) (log self.new) result buf.new };
}

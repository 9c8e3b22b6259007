//! A socket of the system, at any address of IPv4.
ghost use Rattle.std.specs.Prelude.{◌≤◌, None, IfOk, IfSome, length};

use host_guests::{Address, Socket};
use std::io::ErrorKind;
use std::net::{Ipv4Addr, Net, SocketAddr, SocketAddrV4, UdpSocket};
use std::time::{Clock as SystemTimes, Duration};
use std::{io, thread};
use tn_outside::Failed;

/// What stands before the four bytes of an address of IPv4, as IPv6 writes it.
const MAPPED: u64 = 0xffff_0000_0000;

/// So many hosts has IPv4.
const HOSTS: u64 = 1 << 32;

/// A socket that is asked without waiting, and rests by the system's clock where nothing came. It tells nothing of what passes.
#[derive(Drop)]
pub struct OpenSocket<'a, R: SystemTimes> {
    socket: UdpSocket,
    rt: &'a R,
}

fn bound<R: Net>(net: &R, address: SocketAddrV4) -> io::Result<UdpSocket> {
    let socket = UdpSocket::bind(net, address)?;
    socket.set_nonblocking(true)?;
    Ok(socket)
}

// Nothing stood ready, or a datagram that was sent before found nobody: no failure.
fn is_quiet(kind: ErrorKind) -> bool {
    matches!(
        kind,
        ErrorKind::WouldBlock
            | ErrorKind::TimedOut
            | ErrorKind::Interrupted
            | ErrorKind::ConnectionRefused
            | ErrorKind::ConnectionReset
    )
}

// An address of IPv4, as IPv6 writes it.
fn address_of(from: SocketAddrV4) -> Address {
    Address {
        high: 0,
        low: MAPPED + u64::from(from.ip().to_bits()),
        port: from.port(),
    }
}

// Its four bytes.
fn host_of(to: Address) -> u32 {
    (to.low % HOSTS) as u32
}

impl<'a, R: Net + SystemTimes> OpenSocket<'a, R> {
    /// A socket at an address. Fails where that can't be had.
    pub fn bind(rt: &'a R, address: SocketAddrV4) -> Result<OpenSocket<'a, R>, Failed> {
        match bound(rt, address) {
            Ok(socket) => Ok(OpenSocket { socket, rt }),
            Err(_) => Err(Failed),
        }
    }
}

// What stands first, if anything stands ready.
fn ready(socket: &UdpSocket, buf: &mut [u8]) -> Result<Option<(Address, usize)>, Failed>
    ensures { IfOk result (λ answer. IfSome answer (λ x. x.1 ≤ length buf.new)) }
{
    match socket.recv_from(buf) {
        Ok((count, SocketAddr::V4(from))) => { Ok(Some((address_of(from), count))) }
        // A socket of IPv4 has no other.
        Ok((_, SocketAddr::V6(_))) => Ok(None),
        Err(e) => {
            if is_quiet(e.kind()) {
                return Ok(None);
            }
            Err(Failed)
        }
    }
}

impl<R: SystemTimes> Socket for OpenSocket<'_, R> {
    ghost log = { λ _. None };

    fn send(&mut self, to: Address, bytes: &[u8]) -> bool {
        self.socket
            .send_to(bytes, (Ipv4Addr::from_bits(host_of(to)), to.port))
            .is_ok()
    }

    /// If nothing stands ready it sleeps for as long as it may rest, and asks once more.
    fn receive(&mut self, buf: &mut [u8], rest: u64) -> Result<Option<(Address, usize)>, Failed> {
        match ready(&self.socket, buf) {
            Ok(None) if rest > 0 => {
                // A socket's own wait is rounded up to the kernel's ticks of 4 to 10 milliseconds, and a sleep is not.
                thread::sleep(self.rt, Duration::from_millis(rest));
                ready(&self.socket, buf)
            }
            answer => answer,
        }
    }
}

//! A datagram where its caller wants it: after a list of bytes, or in front of a buffer.
ghost use Rattle.std.specs.Prelude.{◌≡◌, ◌+◌, ◌<◌, ◌≤◌, ◌++◌, ◌↔◌, ℕ, List, IsSome, IsErr, IfOk, IfErr, OnOk, OnErr, length, take, drop, vec_len, vec_capacity};
ghost use Rattle.notify_window.specs.State.{send_state};
ghost use Rattle.stream_manager.specs.ghost_masks.StandsFor.{FitPlan};
ghost use Rattle.stream_manager.specs.ConnCalls.{Answers, Sealed, Pinging};
ghost use Rattle.stream_manager.specs.Server.{server_bytes, server_ping_bytes};
ghost use Rattle.stream_manager.specs.Stands.{terms_of};

use crate::made::TooSmall;
use notify_window::SendState;
use stream_manager::Conn;

/// Whether a buffer of so many bytes has room for each datagram of the connection.
pub(crate) fn check_room(conn: &Conn, len: usize) -> Result<(), TooSmall>
    ensures small { IsErr result ↔ (len < conn.now.common.config.size) }
    ensures needed { IfErr result (λ fault. fault.needed ≡ conn.now.common.config.size) }
{
    let needed = conn.config().size as usize;
    if len < needed {
        return Err(TooSmall { needed });
    }
    Ok(())
}

/// Makes a ping after what `out` holds, and gives the number of its bytes.
pub(crate) fn ping_onto(conn: &mut Conn, out: &mut Vec<u8>) -> usize
    requires held { send_state conn.old.common.window ≡ SendState.Held }
    requires room { vec_len out.old + conn.old.common.config.size ≤ vec_capacity out.old }
    ensures pings { Pinging conn.old conn.new }
    ensures bytes { (bytes : List ℕ) × Answers conn.old (server_ping_bytes (terms_of conn.old)) bytes
        × (out.new.items ≡ out.old.items ++ bytes) × (result ≡ length bytes) }
    ensures short { vec_len out.new ≤ vec_len out.old + conn.old.common.config.size }
    ensures room { vec_capacity out.old ≤ vec_capacity out.new }
{
    let bytes = conn.ping();
    if out.extend_from_slice(bytes).is_err() {
        unreachable!()
    }
    bytes.len()
}

/// Makes the data packet that was planned after what `out` holds, with these values, and gives the number of its bytes.
pub(crate) fn seal_onto(conn: &mut Conn, values: &[i64], out: &mut Vec<u8>) -> usize
    requires planned { IsSome conn.old.masks.plan }
    requires values { FitPlan conn.old.masks values.now }
    requires room { vec_len out.old + conn.old.common.config.size ≤ vec_capacity out.old }
    ensures seals { Sealed conn.old values.now conn.new }
    ensures bytes { (bytes : List ℕ) × Answers conn.old (server_bytes (terms_of conn.old) values.now) bytes
        × (out.new.items ≡ out.old.items ++ bytes) × (result ≡ length bytes) }
    ensures short { vec_len out.new ≤ vec_len out.old + conn.old.common.config.size }
    ensures room { vec_capacity out.old ≤ vec_capacity out.new }
{
    let bytes = conn.seal(values);
    if out.extend_from_slice(bytes).is_err() {
        unreachable!()
    }
    bytes.len()
}

/// Makes a ping in front of a buffer that has room for it, and gives the number of its bytes.
pub(crate) fn ping_at(conn: &mut Conn, out: &mut [u8]) -> usize
    requires held { send_state conn.old.common.window ≡ SendState.Held }
    requires room { conn.old.common.config.size ≤ length out.old }
    ensures pings { Pinging conn.old conn.new }
    ensures bytes { Answers conn.old (server_ping_bytes (terms_of conn.old)) (take result out.new) }
    ensures rest { drop result out.new ≡ drop result out.old }
    ensures few { result ≤ conn.old.common.config.size }
    ensures within { result ≤ length out.new }
{
    let bytes = conn.ping();
    let len = bytes.len();
    out[..len].copy_from_slice(bytes);
    len
}

/// Makes the data packet that was planned in front of a buffer that has room for it, and gives the number of its bytes.
pub(crate) fn seal_at(conn: &mut Conn, values: &[i64], out: &mut [u8]) -> usize
    requires planned { IsSome conn.old.masks.plan }
    requires values { FitPlan conn.old.masks values.now }
    requires room { conn.old.common.config.size ≤ length out.old }
    ensures seals { Sealed conn.old values.now conn.new }
    ensures bytes { Answers conn.old (server_bytes (terms_of conn.old) values.now) (take result out.new) }
    ensures rest { drop result out.new ≡ drop result out.old }
    ensures few { result ≤ conn.old.common.config.size }
    ensures within { result ≤ length out.new }
{
    let bytes = conn.seal(values);
    let len = bytes.len();
    out[..len].copy_from_slice(bytes);
    len
}

/// Makes a ping in a buffer, and gives the number of its bytes, which stand in front. A buffer that is smaller than the
/// connection's datagrams may be is refused before anything is done.
pub fn ping_into(conn: &mut Conn, out: &mut [u8]) -> Result<usize, TooSmall>
    requires { send_state conn.old.common.window ≡ SendState.Held }
    ensures small { IsErr result ↔ (length out.old < conn.old.common.config.size) }
    ensures needed { IfErr result (λ fault. fault.needed ≡ conn.old.common.config.size) }
    ensures unchanged { OnErr result ((conn.new ≡ conn.old) × (out.new ≡ out.old)) }
    ensures pings { OnOk result (Pinging conn.old conn.new) }
    ensures bytes { IfOk result (λ len. Answers conn.old (server_ping_bytes (terms_of conn.old)) (take len out.new)) }
    ensures rest { IfOk result (λ len. drop len out.new ≡ drop len out.old) }
    ensures few { IfOk result (λ len. (len ≤ conn.old.common.config.size) × (len ≤ length out.new)) }
{
    check_room(conn, out.len())?;
    Ok(ping_at(conn, out))
}

/// Makes the data packet that was planned in a buffer, with one value for each field that its ghosts carry, in the order of the
/// plan and by rising field, and gives the number of its bytes, which stand in front. A buffer that is smaller than the
/// connection's datagrams may be is refused before anything is done.
pub fn seal_into(conn: &mut Conn, values: &[i64], out: &mut [u8]) -> Result<usize, TooSmall>
    requires planned { IsSome conn.old.masks.plan }
    requires values { FitPlan conn.old.masks values.now }
    ensures small { IsErr result ↔ (length out.old < conn.old.common.config.size) }
    ensures needed { IfErr result (λ fault. fault.needed ≡ conn.old.common.config.size) }
    ensures unchanged { OnErr result ((conn.new ≡ conn.old) × (out.new ≡ out.old)) }
    ensures seals { OnOk result (Sealed conn.old values.now conn.new) }
    ensures bytes { IfOk result (λ len. Answers conn.old (server_bytes (terms_of conn.old) values.now) (take len out.new)) }
    ensures rest { IfOk result (λ len. drop len out.new ≡ drop len out.old) }
    ensures few { IfOk result (λ len. (len ≤ conn.old.common.config.size) × (len ≤ length out.new)) }
{
    check_room(conn, out.len())?;
    Ok(seal_at(conn, values, out))
}

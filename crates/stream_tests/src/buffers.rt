//! Datagrams in a buffer of the caller's, byte for byte, on a row of `ends`: an object is created once its block came.
ghost use Rattle.std.specs.Prelude.{◌≡◌, ◌≤◌, length};
ghost use Rattle.tn_types.specs.declared.limits.TheConstants.{MAX_READ_BYTES};
ghost use Rattle.stream_manager.specs.Stands.{ConnStandsForSome};

use crate::ends::{BLOCK, BLOCK_CAME, CLOCK, CONFIG, new_conn};
use crate::pairs::{Given, are_listed};
use conn_packing::{Made, Packer, TooSmall, ping_into};
use notify_window::SendState;
use std::test::Fail;
use stream_manager::Conn;
use tn_types::{MAX_READ_BYTES, MAX_SHOWS};
use world_rules::match_kinds;

/// Shows a clock with block 0; whether it could be shown.
fn shows_clock(conn: &mut Conn) -> bool
    requires { ConnStandsForSome conn.old }
    ensures { ConnStandsForSome conn.new }
{
    if !conn.has_kind(5) || conn.is_full() || conn.shows() == MAX_SHOWS {
        return false;
    }
    let _ = conn.show(5, 0, 0, false);
    true
}

/// The server takes this datagram; whether it did.
fn takes(conn: &mut Conn, bytes: &[u8]) -> bool
    requires { ConnStandsForSome conn.old }
    ensures { ConnStandsForSome conn.new }
{
    if conn.waiting() > 0 || bytes.len() > MAX_READ_BYTES {
        return false;
    }
    conn.arrive(bytes, 32).is_ok()
}

/// What the server's next pack answers, in this buffer, where its ghosts have these values; `None` where the periods that are up
/// were not shown with these kinds, or other values were asked for.
fn packs(
    packer: &mut Packer,
    conn: &mut Conn,
    shown: &[u8],
    values: &[i64],
    out: &mut [u8],
) -> Option<Result<Made, TooSmall>>
    requires { ConnStandsForSome conn.old }
    ensures { ConnStandsForSome conn.new }
{
    if !are_listed(conn, shown) {
        return None;
    }
    let mut given = Given {
        kinds: conn.kinds().copy(),
        shown,
        values,
        asked: 0,
    };
    let answer = packer.pack_into(conn, &[], &mut given, out);
    if answer.is_ok() && given.asked != values.len() {
        return None;
    }
    Some(answer)
}

/// What a ping answers in this buffer; `None` where none is due.
fn pings(conn: &mut Conn, out: &mut [u8]) -> Option<Result<usize, TooSmall>>
    requires { ConnStandsForSome conn.old }
    ensures { ConnStandsForSome conn.new }
{
    if conn.pack_state() != SendState::Held {
        return None;
    }
    Some(ping_into(conn, out))
}

/// Whether a buffer begins with this datagram.
fn begins(out: &[u8], datagram: &[u8]) -> bool {
    out.starts_with(datagram)
}

#[test]
fn datagrams_in_a_buffer(rt: HostRuntime) -> Result<(), Fail> {
    let mut conn = new_conn(rt.alloc(), CONFIG, &match_kinds())?;
    let mut packer = Packer::new(rt.alloc()).expect(&rt, "memory");
    let mut small = [7; 127];
    let mut out = [7; 130];
    assert!(rt; shows_clock(&mut conn));
    let refused = Some(Err(TooSmall { needed: 128 }));
    assert!(rt; packs(&mut packer, &mut conn, &[5], &[], &mut small) == refused);
    assert!(rt; small == [7; 127]);
    let block = Some(Ok(Made::Body { len: 19 }));
    assert!(rt; packs(&mut packer, &mut conn, &[5], &[], &mut out) == block);
    assert!(rt; begins(&out, BLOCK) && out.get(19..) == Some(&[7; 111][..]));
    assert!(rt; takes(&mut conn, BLOCK_CAME));
    let clock = Some(Ok(Made::Body { len: 24 }));
    assert!(rt; packs(&mut packer, &mut conn, &[5], &[0, 0, 0], &mut out) == clock);
    assert!(rt; begins(&out, CLOCK) && pings(&mut conn, &mut out).is_none());
    Ok(())
}

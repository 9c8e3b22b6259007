//! The relay's lines, one function each.
ghost use Rattle.std.specs.Prelude.{◌≡◌, IfOk};
ghost use Rattle.match_script.specs.Shape.{first_line};
ghost use Rattle.match_script.specs.Text.{words_of};
ghost use Rattle.relay_script.specs.Lines.{is_relay, scan_line, pack_line, client_pack_line, down_line, up_line, show_line, relay_line, relay_line_at};
ghost use Rattle.relay_script.specs.Ranges.{RelayLineFits};

use crate::types::RelayLine;
use match_script::{
    MAX_BODY_LINES, ScriptFault, Words, below, is_name, is_text, number_32, parted,
};

/// Whether the first line of a text is one of the relay's.
#[tactic(auto, using(crate::proofs::Cutting::with_r, crate::proofs::Cutting::without_r, crate::proofs::Cutting::too_short))]
pub(crate) fn is_relay(text: &[u8]) -> bool
    ensures { result ≡ is_relay (first_line text.now) }
{
    if text.len() < 2 {
        return false;
    }
    text[0] == b'r' && text[1] == b' '
}

#[tactic(auto, unfolding(crate::specs::Lines::scan_line))]
fn scan(spectators: u8, s: &[u8]) -> Result<RelayLine, ScriptFault>
    ensures value { result ≡ scan_line spectators s.now }
    ensures fits { IfOk result (RelayLineFits spectators) }
{
    let spectator = below(spectators, s)?;
    Ok(RelayLine::Scan { spectator })
}

#[tactic(auto, unfolding(crate::specs::Lines::pack_line))]
fn pack(spectators: u8, s: &[u8]) -> Result<RelayLine, ScriptFault>
    ensures value { result ≡ pack_line spectators s.now }
    ensures fits { IfOk result (RelayLineFits spectators) }
{
    let spectator = below(spectators, s)?;
    Ok(RelayLine::Pack { spectator })
}

#[tactic(auto, unfolding(crate::specs::Lines::client_pack_line))]
fn client_pack(spectators: u8, s: &[u8]) -> Result<RelayLine, ScriptFault>
    ensures value { result ≡ client_pack_line spectators s.now }
    ensures fits { IfOk result (RelayLineFits spectators) }
{
    let spectator = below(spectators, s)?;
    Ok(RelayLine::ClientPack { spectator })
}

#[tactic(auto, unfolding(crate::specs::Lines::down_line))]
fn down(spectators: u8, s: &[u8], place: &[u8]) -> Result<RelayLine, ScriptFault>
    ensures value { result ≡ down_line spectators s.now place.now }
    ensures fits { IfOk result (RelayLineFits spectators) }
{
    let spectator = below(spectators, s)?;
    let packet = number_32(place)?;
    Ok(RelayLine::Down { spectator, packet })
}

#[tactic(auto, unfolding(crate::specs::Lines::up_line))]
fn up(spectators: u8, s: &[u8], place: &[u8]) -> Result<RelayLine, ScriptFault>
    ensures value { result ≡ up_line spectators s.now place.now }
    ensures fits { IfOk result (RelayLineFits spectators) }
{
    let spectator = below(spectators, s)?;
    let packet = number_32(place)?;
    Ok(RelayLine::Up { spectator, packet })
}

#[tactic(auto, unfolding(crate::specs::Lines::show_line))]
fn show(spectators: u8, s: &[u8]) -> Result<RelayLine, ScriptFault>
    ensures value { result ≡ show_line spectators s.now }
    ensures fits { IfOk result (RelayLineFits spectators) }
{
    let spectator = below(spectators, s)?;
    Ok(RelayLine::Show { spectator })
}

// The relay's line of these words, whose first is `r`.
#[tactic(auto, unfolding(crate::specs::Lines::relay_line))]
fn relay_line(spectators: u8, line: &[u8]) -> Result<RelayLine, ScriptFault>
    ensures value { result ≡ relay_line spectators (words_of line.now) }
    ensures fits { IfOk result (RelayLineFits spectators) }
{
    match parted(line) {
        Words::Three(_, kind, s) => {
            if is_name(kind, b"pack") {
                pack(spectators, s)
            } else if is_name(kind, b"cpack") {
                client_pack(spectators, s)
            } else if is_name(kind, b"scan") {
                scan(spectators, s)
            } else if is_name(kind, b"show") {
                show(spectators, s)
            } else {
                Err(ScriptFault::UnknownWord)
            }
        }
        Words::Four(_, kind, s, place) => {
            if is_name(kind, b"down") {
                down(spectators, s, place)
            } else if is_name(kind, b"up") {
                up(spectators, s, place)
            } else {
                Err(ScriptFault::UnknownWord)
            }
        }
        _ => Err(ScriptFault::UnknownWord),
    }
}

/// The relay's line that stands at place k of the whole body, counted from 0.
#[tactic(auto, unfolding(crate::specs::Lines::relay_line_at))]
pub(crate) fn relay_line_at(spectators: u8, k: u32, line: &[u8]) -> Result<RelayLine, ScriptFault>
    ensures value { result ≡ relay_line_at spectators k line.now }
    ensures fits { IfOk result (RelayLineFits spectators) }
{
    if !is_text(line) {
        return Err(ScriptFault::NotText);
    }
    if k >= MAX_BODY_LINES {
        return Err(ScriptFault::TooManyLines);
    }
    relay_line(spectators, line)
}

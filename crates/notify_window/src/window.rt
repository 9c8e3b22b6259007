//! The window and its calls.

ghost use Rattle.std.specs.Prelude.{◌≡◌, ◌≢◌, ℕ, ◌+◌, ◌-◌, ◌<◌, ◌≤◌, ◌↔◌, List, [], ◌∷◌, IfOk, OnErr, OnOk, IfErr, IsErr};
ghost use Rattle.tn_types.specs.Histories.{Does, Answers};
ghost use Rattle.tn_types.specs.PacketKinds.{is_ping};

use crate::masks::{moved, turned};
use crate::{AckAhead, Arrival, Notices, SendState};
use std::marker::Model;
use tn_types::{MAX_LIFE, MAX_UNJUDGED_PACKETS, PacketKind};

/// What one end knows of the packets of both.
///
/// A clause sees the numbers of `WindowState`, and what they mean by the log of what the window saw.
#[derive(Drop)]
pub struct Window {
    sent: u32,
    first_unjudged: u32,
    horizon: u32,
    mask: u32,
    life: u32,
}

impl Model for Window {
    ghost use Rattle.notify_window.specs.State.{WindowState, IsBounded};

    ghost Value = { WindowState };

    ghost use Rattle.notify_window.specs.View.{state_of};

    ghost view = { state_of };

    ghost invariant = { λ w. IsBounded (state_of w) };
}

impl Window {
    ghost use Rattle.notify_window.specs.State.{send_state};
    ghost use Rattle.notify_window.specs.Log.{WindowEvent, Sent, Came, Told, AreVerdicts, send_state_of, arrival_of, notices_of};
    ghost use Rattle.notify_window.specs.Stands.{StandsFor};

    /// The window of a new connection, whose two ends each send at most `life` data packets.
    pub fn new(life: u32) -> Window
        requires { life ≤ MAX_LIFE }
        ensures stands { StandsFor result [] }
        ensures life { result.life ≡ life }
    {
        Window {
            sent: 0,
            first_unjudged: 1,
            horizon: 0,
            mask: 0,
            life,
        }
    }

    /// What a pack makes now: `Held` exactly where 32 packets are unjudged, `Worn` exactly where fewer are
    /// and `life` were sent (docs/connection.md, "Sending").
    pub fn can_send(&self) -> SendState
        ensures state { result ≡ send_state self.now }
        ensures log { Answers StandsFor self.now (send_state_of self.now.life) result }
    {
        if self.sent + 1 == self.first_unjudged + MAX_UNJUDGED_PACKETS {
            SendState::Held
        } else if self.sent == self.life {
            SendState::Worn
        } else {
            SendState::Room
        }
    }

    /// Counts a data packet, and gives its number, from 1 on. A ping is not counted.
    pub fn send(&mut self) -> u32
        requires { send_state self.old ≡ SendState.Room }
        ensures number { result ≡ self.old.sent + 1 }
        ensures stands { Does StandsFor self.old Sent self.new }
        ensures life { self.new.life ≡ self.old.life }
    {
        self.sent += 1;
        self.sent
    }

    /// The number of the last data packet that was sent, 0 where none was.
    pub fn last_sent(&self) -> u32
        ensures { result ≡ self.now.sent }
    {
        self.sent
    }

    /// The least number that has no verdict, of those sent and to be sent.
    pub fn first_unjudged(&self) -> u32
        ensures { result ≡ self.now.first_unjudged }
    {
        self.first_unjudged
    }

    /// What the other end is told: the horizon, and the mask whose bit i is set where packet `horizon - i`
    /// was processed.
    pub fn ack(&self) -> (u32, u32)
        ensures { result ≡ (self.now.horizon, self.now.mask) }
    {
        (self.horizon, self.mask)
    }

    /// What would become of a datagram of the other end: what `receive` answers.
    pub fn arrival(&self, kind: PacketKind, seq: u32) -> Arrival
        ensures { result ≡ arrival_of (is_ping kind) seq self.now.horizon }
    {
        match kind {
            PacketKind::Body if seq <= self.horizon => Arrival::Old {
                seq,
                horizon: self.horizon,
            },
            PacketKind::Ping | PacketKind::Body => Arrival::Fresh,
        }
    }

    /// Takes a datagram of the other end (docs/connection.md, "Receiving").
    ///
    /// `Old` comes exactly for a data packet with `seq` at most the horizon, and changes nothing. A fresh
    /// data packet moves the horizon to `seq` and is processed. A ping moves the horizon where `seq` is
    /// above it, and marks nothing as processed.
    pub fn receive(&mut self, kind: PacketKind, seq: u32) -> Arrival
        ensures answer { result ≡ arrival_of (is_ping kind) seq self.old.horizon }
        ensures old { result ≢ Arrival.Fresh → self.new ≡ self.old }
        ensures fresh { result ≡ Arrival.Fresh → Does StandsFor self.old (Came (is_ping kind) seq) self.new }
        ensures life { self.new.life ≡ self.old.life }
    {
        let arrival = self.arrival(kind, seq);
        match arrival {
            Arrival::Old { .. } => arrival,
            Arrival::Fresh => {
                self.mask = moved(self.mask, seq.saturating_sub(self.horizon), kind);
                self.horizon = self.horizon.max(seq);
                arrival
            }
        }
    }

    /// Reads an acknowledgement: the verdicts of all packets from the first unjudged one to `horizon`, in
    /// rising order (docs/connection.md, "Notices").
    ///
    /// `AckAhead` comes exactly where the horizon is above the last number that was sent, and changes
    /// nothing. Where the horizon is below the first unjudged number, nothing is judged.
    pub fn notices(&mut self, horizon: u32, mask: u32) -> Result<Notices, AckAhead>
        ensures ahead { IsErr result ↔ (self.old.sent < horizon) }
        ensures names { IfErr result (λ e. (e.horizon ≡ horizon) × (e.last ≡ self.old.sent)) }
        ensures unchanged { OnErr result (self.new ≡ self.old) }
        ensures stands { OnOk result (Does StandsFor self.old (Told horizon mask) self.new) }
        ensures first { IfOk result (λ n. n.first ≡ self.old.first_unjudged) }
        ensures count { IfOk result (λ n. n.count ≡ horizon + 1 - self.old.first_unjudged) }
        ensures notices { IfOk result (λ n. Answers StandsFor self.old (notices_of horizon mask) n) }
        ensures verdicts { IfOk result (λ n. (log : List WindowEvent) → StandsFor self.old log → AreVerdicts n (Told horizon mask ∷ log)) }
        ensures life { self.new.life ≡ self.old.life }
    {
        if horizon > self.sent {
            return Err(AckAhead {
                horizon,
                last: self.sent,
            });
        }
        let first = self.first_unjudged;
        if horizon < first {
            return Ok(Notices {
                first,
                count: 0,
                bits: 0,
            });
        }
        let count = horizon + 1 - first;
        self.first_unjudged = horizon + 1;
        Ok(Notices {
            first,
            count,
            bits: turned(mask, count),
        })
    }
}

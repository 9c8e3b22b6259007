//! The datagrams of a greeting, byte by byte: docs/joining.md has them as tables.
ghost use Rattle.std.specs.Prelude.{◌≡◌, ◌≤◌, ◌+◌, ◌++◌, [], length};
ghost use Rattle.greeting.specs.Datagrams.{form, form_by, least_bytes, begun, nonce_in, number_in, hello, challenge, answer, welcome, refusal, reason_byte, reason_of};

use crate::words::{Sixteen, sixteen_at};
use arrayvec::ArrayVec;
use std::marker::Model;

/// The first byte of a hello. The two lowest bits of each first byte are set, which they are in no packet of a connection.
pub const HELLO: u8 = 3;

/// The first byte of a challenge.
pub const CHALLENGE: u8 = 7;

/// The first byte of an answer.
pub const ANSWER: u8 = 11;

/// The first byte of a welcome.
pub const WELCOME: u8 = 15;

/// The first byte of a refusal.
pub const REFUSAL: u8 = 19;

/// The second byte of each.
pub const GREETING_VERSION: u8 = 1;

/// So many bytes has a protocol number.
pub const PROTOCOL_BYTES: usize = 32;

/// So many bytes have the terms of a welcome.
pub const TERMS_BYTES: usize = 32;

/// The most bytes of a token.
pub const MAX_TOKEN_BYTES: usize = 256;

/// So many bytes has a hello.
pub const HELLO_BYTES: usize = 50;

/// So many bytes has a challenge.
pub const CHALLENGE_BYTES: usize = 34;

/// So many bytes has an answer before its token.
pub const ANSWER_BYTES: usize = 34;

/// So many bytes has a welcome.
pub const WELCOME_BYTES: usize = 54;

/// So many bytes has a refusal.
pub const REFUSAL_BYTES: usize = 19;

/// No datagram of a greeting is longer.
pub const MAX_GREETING_BYTES: usize = 290;

/// Why a client is not let in.
#[derive(Clone, Copy, Debug, PartialEq, Eq)]
pub enum Reason {
    /// It speaks another version of the greeting.
    OtherVersion,
    /// Its protocol number is another one: other kinds, another configuration, or another game.
    OtherProtocol,
    /// Each seat is somebody's.
    Full,
    /// The game does not take its token.
    TokenRefused,
}

impl Reason {
    /// The number that tells it in a refusal.
    pub fn byte(self) -> u8
        ensures { result ≡ reason_byte self }
    {
        match self {
            Reason::OtherVersion => 1,
            Reason::OtherProtocol => 2,
            Reason::Full => 3,
            Reason::TokenRefused => 4,
        }
    }

    /// The reason that a number tells.
    pub fn of(byte: u8) -> Option<Reason>
        ensures { result ≡ reason_of byte }
    {
        match byte {
            1 => Some(Reason::OtherVersion),
            2 => Some(Reason::OtherProtocol),
            3 => Some(Reason::Full),
            4 => Some(Reason::TokenRefused),
            _ => None,
        }
    }
}

// What a datagram is, by its first two bytes and its length.
#[derive(Clone, Copy)]
pub(crate) enum Form {
    Hello,
    /// A hello of another version.
    OtherHello,
    Challenge,
    Answer,
    Welcome,
    Refusal,
    /// No greeting.
    Nothing,
}

fn form_by(kind: u8, version: u8, count: usize) -> Form
    ensures { result ≡ form_by kind version count }
{
    if kind == HELLO && count >= HELLO_BYTES && version != GREETING_VERSION {
        return Form::OtherHello;
    }
    if version != GREETING_VERSION {
        return Form::Nothing;
    }
    if kind == HELLO && count == HELLO_BYTES {
        return Form::Hello;
    }
    if kind == CHALLENGE && count == CHALLENGE_BYTES {
        return Form::Challenge;
    }
    if kind == ANSWER && count >= ANSWER_BYTES && count <= MAX_GREETING_BYTES {
        return Form::Answer;
    }
    if kind == WELCOME && count == WELCOME_BYTES {
        return Form::Welcome;
    }
    if kind == REFUSAL && count == REFUSAL_BYTES {
        return Form::Refusal;
    }
    Form::Nothing
}

#[tactic(auto, using(crate::proofs::Forms::long_enough), unfolding(crate::specs::Datagrams::form))]
pub(crate) fn form_of(bytes: &[u8]) -> Form
    ensures value { result ≡ form bytes.now }
    ensures long { least_bytes result ≤ length bytes.now }
{
    if bytes.len() < 2 {
        return Form::Nothing;
    }
    form_by(bytes[0], bytes[1], bytes.len())
}

/// The bytes of one datagram of a greeting, which contracts see as their list. None: nothing is to be sent.
#[derive(Drop)]
pub struct GreetingBytes {
    bytes: ArrayVec<u8, MAX_GREETING_BYTES>,
}

impl Model for GreetingBytes {
    ghost use Rattle.std.specs.Prelude.{List, ℕ, ◌≤◌, length};
    ghost use Rattle.greeting.specs.declared.datagrams.TheConstants.{MAX_GREETING_BYTES};

    ghost Value = { List ℕ };

    ghost view = { λ g. g.bytes.items };

    ghost invariant = { λ g. length g.bytes.items ≤ MAX_GREETING_BYTES };
}

impl GreetingBytes {
    /// None.
    pub fn new() -> GreetingBytes
        ensures { result ≡ [] }
    {
        GreetingBytes {
            bytes: ArrayVec::new(),
        }
    }

    /// The bytes, lent.
    pub fn as_slice(&self) -> &[u8]
        ensures bytes { result.now ≡ self.now }
        ensures few { length result.now ≤ MAX_GREETING_BYTES }
    {
        self.bytes.as_slice()
    }

    // Takes all away.
    pub(crate) fn clear(&mut self)
        ensures { self.new ≡ [] }
    {
        self.bytes.clear();
    }

    // Appends bytes.
    fn put(&mut self, more: &[u8])
        requires { length self.old + length more.now ≤ MAX_GREETING_BYTES }
        ensures items { self.new ≡ self.old ++ more.now }
        ensures len { length self.new ≡ length self.old + length more.now }
    {
        match self.bytes.try_extend_from_slice(more) {
            Ok(()) => {}
            Err(_) => unreachable!(),
        }
    }

    // The first bytes of each datagram.
    fn begin(&mut self, kind: u8, nonce: Sixteen)
        ensures items { self.new ≡ begun kind nonce }
        ensures len { length self.new ≡ 18 }
    {
        self.clear();
        self.put(&[kind, GREETING_VERSION]);
        self.put(&nonce.bytes());
    }

    // A client knocks.
    pub(crate) fn write_hello(&mut self, nonce: Sixteen, protocol: &[u8; PROTOCOL_BYTES])
        ensures { self.new ≡ hello nonce protocol.now }
    {
        self.begin(HELLO, nonce);
        self.put(protocol);
    }

    // The server answers a hello.
    pub(crate) fn write_challenge(&mut self, nonce: Sixteen, number: Sixteen)
        ensures { self.new ≡ challenge nonce number }
    {
        self.begin(CHALLENGE, nonce);
        self.put(&number.bytes());
    }

    // The client tells the number of the challenge, with its token.
    pub(crate) fn write_answer(&mut self, nonce: Sixteen, number: Sixteen, token: &[u8])
        requires { length token.now ≤ MAX_TOKEN_BYTES }
        ensures { self.new ≡ answer nonce number token.now }
    {
        self.begin(ANSWER, nonce);
        self.put(&number.bytes());
        self.put(token);
    }

    // The client is let in.
    pub(crate) fn write_welcome(&mut self, nonce: Sixteen, client: u32, terms: &[u8; TERMS_BYTES])
        ensures { self.new ≡ welcome nonce client terms.now }
    {
        self.begin(WELCOME, nonce);
        self.put(&client.to_le_bytes());
        self.put(terms);
    }

    // It is not.
    pub(crate) fn write_refusal(&mut self, nonce: Sixteen, reason: Reason)
        ensures { self.new ≡ refusal nonce reason }
    {
        self.begin(REFUSAL, nonce);
        self.put(&[reason.byte()]);
    }
}

// The nonce of a datagram, which stands in each form at the same place.
pub(crate) fn nonce_in(bytes: &[u8]) -> Sixteen
    requires { 18 ≤ length bytes.now }
    ensures { result ≡ nonce_in bytes.now }
{
    sixteen_at(bytes, 2)
}

// The number of a challenge or an answer.
pub(crate) fn number_in(bytes: &[u8]) -> Sixteen
    requires { 34 ≤ length bytes.now }
    ensures { result ≡ number_in bytes.now }
{
    sixteen_at(bytes, 18)
}

//! The client's side of a greeting: hello, answer, and what the server makes of it.
ghost use Rattle.std.specs.Prelude.{◌≡◌, ◌≤◌, length};
ghost use Rattle.greeting.specs.declared.datagrams.TheConstants.{MAX_TOKEN_BYTES};
ghost use Rattle.greeting.specs.declared.datagrams.Form.TheVariants.{Challenge, Welcome, Refusal};
ghost use Rattle.greeting.specs.declared.knock.Reached.TheVariants.{Asking};
ghost use Rattle.greeting.specs.Words.{is_equal};
ghost use Rattle.greeting.specs.Datagrams.{nonce_in, client_in, terms_in};
ghost use Rattle.greeting.specs.Knock.{said_by, moved, heard_by};

use crate::datagrams::{
    Form, GreetingBytes, PROTOCOL_BYTES, Reason, TERMS_BYTES, form_of, nonce_in, number_in,
};
use crate::words::Sixteen;

/// How far a greeting is.
#[derive(Clone, Copy)]
pub enum Reached {
    /// The client says hello.
    Asking,
    /// A challenge came: the client says its answer.
    Answering {
        number: Sixteen,
    },
    /// The server let it in, as this client.
    Joined {
        client: u32,
        terms: [u8; TERMS_BYTES],
    },
    /// The server did not.
    Refused {
        reason: Reason,
    },
}

/// A client that greets a server. It sends what `write` gives, and does so again from time to time until it is let in or not.
#[derive(Drop)]
pub struct Knock {
    nonce: Sixteen,
    protocol: [u8; PROTOCOL_BYTES],
    reached: Reached,
}

// The client of a welcome.
#[tactic(auto, unfolding(crate::specs::Datagrams::client_in))]
fn client_in(bytes: &[u8]) -> u32
    requires { 22 ≤ length bytes.now }
    ensures { result ≡ client_in bytes.now }
{
    let mut four = [0; 4];
    four.copy_from_slice(&bytes[18..22]);
    u32::from_le_bytes(four)
}

// Its terms.
fn terms_in(bytes: &[u8]) -> [u8; TERMS_BYTES]
    requires { 54 ≤ length bytes.now }
    ensures { result ≡ terms_in bytes.now }
{
    let mut terms = [0; TERMS_BYTES];
    terms.copy_from_slice(&bytes[22..54]);
    terms
}

impl Knock {
    /// A client that has not greeted yet. The nonce is to be one that nobody can guess, and another one each time.
    pub fn new(nonce: Sixteen, protocol: [u8; PROTOCOL_BYTES]) -> Knock
        ensures { result ≡ record { nonce = nonce; protocol = protocol; reached = Asking } }
    {
        Knock {
            nonce,
            protocol,
            reached: Reached::Asking,
        }
    }

    /// A client that is so far, for callers that keep what it has themselves.
    pub fn at(nonce: Sixteen, protocol: [u8; PROTOCOL_BYTES], reached: Reached) -> Knock
        ensures { result ≡ record { nonce = nonce; protocol = protocol; reached = reached } }
    {
        Knock {
            nonce,
            protocol,
            reached,
        }
    }

    /// How far it is.
    pub fn reached(&self) -> Reached
        ensures { result ≡ self.now.reached }
    {
        self.reached
    }

    /// What is to be sent now: the hello, the answer with the token, or nothing, as `place` then has no bytes.
    pub fn write(&self, token: &[u8], place: &mut GreetingBytes)
        requires { length token.now ≤ MAX_TOKEN_BYTES }
        ensures { place.new ≡ said_by self.now token.now }
    {
        match self.reached {
            Reached::Asking => place.write_hello(self.nonce, &self.protocol),
            Reached::Answering { number } => place.write_answer(self.nonce, number, token),
            _ => place.clear(),
        }
    }

    // A challenge came.
    fn challenged(&self, bytes: &[u8]) -> Reached
        requires { 34 ≤ length bytes.now }
        ensures { result ≡ moved self.now.reached Challenge (is_equal (nonce_in bytes.now) self.now.nonce) bytes.now }
    {
        if !nonce_in(bytes).is_equal(self.nonce) {
            return self.reached;
        }
        match self.reached {
            Reached::Asking | Reached::Answering { number: _ } => Reached::Answering {
                number: number_in(bytes),
            },
            reached => reached,
        }
    }

    // A welcome came.
    fn welcomed(&self, bytes: &[u8]) -> Reached
        requires { 54 ≤ length bytes.now }
        ensures { result ≡ moved self.now.reached Welcome (is_equal (nonce_in bytes.now) self.now.nonce) bytes.now }
    {
        if !nonce_in(bytes).is_equal(self.nonce) {
            return self.reached;
        }
        match self.reached {
            Reached::Answering { number: _ } => Reached::Joined {
                client: client_in(bytes),
                terms: terms_in(bytes),
            },
            reached => reached,
        }
    }

    // A refusal came.
    fn refused(&self, bytes: &[u8]) -> Reached
        requires { 19 ≤ length bytes.now }
        ensures { result ≡ moved self.now.reached Refusal (is_equal (nonce_in bytes.now) self.now.nonce) bytes.now }
    {
        if !nonce_in(bytes).is_equal(self.nonce) {
            return self.reached;
        }
        match (self.reached, Reason::of(bytes[18])) {
            (Reached::Asking | Reached::Answering { number: _ }, Some(reason)) => Reached::Refused {
                reason,
            },
            (reached, _) => reached,
        }
    }

    /// A datagram came from the server. What is no greeting, or has another nonce, changes nothing.
    pub fn hear(&mut self, bytes: &[u8])
        ensures { self.new ≡ record self.old { reached = heard_by self.old bytes.now } }
    {
        self.reached = match form_of(bytes) {
            Form::Challenge => self.challenged(bytes),
            Form::Welcome => self.welcomed(bytes),
            Form::Refusal => self.refused(bytes),
            _ => self.reached,
        };
    }
}

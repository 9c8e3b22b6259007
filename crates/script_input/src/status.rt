//! How a call ended, and what the program says of it.
ghost use Rattle.std.specs.Prelude.{◌≡◌};
ghost use Rattle.script_input.specs.Said.{exit_of};

use match_script::ScriptFault;
use std::fmt;

/// How a call ended (docs/script.md, "The command line").
#[derive(Clone, Copy, Debug, PartialEq, Eq)]
pub enum Status {
    /// The whole text was written.
    Done,
    /// The words are no command; this is the least place at which they stop being one.
    Usage(u32),
    /// The text is no script; the least faulty line and its first fault.
    Script(u32, ScriptFault),
    /// The source gave more than 1,048,576 bytes.
    TooLong,
    /// The source failed.
    ReadFault,
    /// The sink failed; a front of the text was written.
    WriteFault,
    /// Memory was not to be had; a front of the text was written.
    NoMemory,
    /// The link failed; a front of the text was written, and a front of the datagrams sent.
    LinkFault,
    /// The clock failed; the same.
    ClockFault,
    /// The bytes are no demo; the first byte of the least part of a demo's head that is missing or out of range.
    Demo(u32),
}

/// The exit status of an answer.
pub fn exit_of(status: Status) -> u8
    ensures { result ≡ exit_of status }
{
    match status {
        Status::Done => 0,
        Status::Usage(_) => 2,
        Status::Script(_, _) => 3,
        Status::TooLong => 4,
        Status::ReadFault => 5,
        Status::WriteFault => 6,
        Status::NoMemory => 7,
        Status::LinkFault => 8,
        Status::ClockFault => 9,
        Status::Demo(_) => 10,
    }
}

/// The words on standard error.
impl fmt::Display for Status {
    ghost use Rattle.std.specs.Prelude.{Some};
    ghost use Rattle.script_input.specs.Said.{words_of};

    ghost output = { λ s. Some (words_of s) };

    fn fmt<W: fmt::Write>(&self, f: &mut fmt::Formatter<W>) -> fmt::Result {
        match *self {
            Status::Done => Ok(()),
            Status::Usage(place) => write!(f, "usage {place}"),
            Status::Script(line, fault) => write!(f, "script {line} {fault}"),
            Status::TooLong => write!(f, "toolong"),
            Status::ReadFault => write!(f, "readfault"),
            Status::WriteFault => write!(f, "writefault"),
            Status::NoMemory => write!(f, "nomemory"),
            Status::LinkFault => write!(f, "linkfault"),
            Status::ClockFault => write!(f, "clockfault"),
            Status::Demo(place) => write!(f, "demo {place}"),
        }
    }
}

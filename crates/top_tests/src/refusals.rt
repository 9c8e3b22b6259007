//! Texts that are no scripts, with what is answered: one line for each fault and each limit.

use crate::served::Part::{self, Times, Words};
use match_script::ScriptFault;
use script_input::Status;

const HEADER: Part = Words("tribes 1\nmatch 1 1 100 128 1000\n");

// A script's first lines and the word that its body begins with.
const BEGUN: Part = Words("tribes 1\nmatch 1 1 100 128 1000\ngo\n");

/// Each text with the answer. Nothing is written.
pub(crate) const REFUSALS: [(&[Part], Status); 21] = [
    (
        &[Words("tribes 1")],
        Status::Script(2, ScriptFault::BadHeader),
    ),
    (
        &[BEGUN, Words("pak 0\n")],
        Status::Script(4, ScriptFault::UnknownWord),
    ),
    (
        &[BEGUN, Words("pack\n")],
        Status::Script(4, ScriptFault::UnknownWord),
    ),
    (
        &[BEGUN, Words("pack 0\npack 1\n")],
        Status::Script(5, ScriptFault::OutOfRange),
    ),
    (
        &[BEGUN, Words("tick\nscan 1\n")],
        Status::Script(5, ScriptFault::OutOfRange),
    ),
    (
        &[BEGUN, Words("raw 0 4\n")],
        Status::Script(4, ScriptFault::BadHex),
    ),
    (
        &[HEADER, Words("spawn clock 0 0 0 0\ngo\n")],
        Status::Script(3, ScriptFault::BadHeader),
    ),
    (
        &[
            HEADER,
            Words("block 61\nplayer 0 0 0 1 1\nplayer 0 0 1 1 1\ngo\n"),
        ],
        Status::Script(5, ScriptFault::BadHeader),
    ),
    (
        &[
            HEADER,
            Words("block 61\nspawn mine 0 0 1 1\nplayer 0 0 0 1 1\ngo\n"),
        ],
        Status::Script(5, ScriptFault::BadHeader),
    ),
    (
        &[Words("tribes 1\nmatch 1 17 100 128 1000\ngo\n")],
        Status::Script(2, ScriptFault::BadHeader),
    ),
    (
        &[Words("tribes 1\nmatch 1 1 0 128 1000\ngo\n")],
        Status::Script(2, ScriptFault::BadHeader),
    ),
    (
        &[Words("tribes 1\nmatch 1 1 100 127 1000\ngo\n")],
        Status::Script(2, ScriptFault::BadHeader),
    ),
    (
        &[Words("tribes 1\nmatch 1 1 100 1201 1000\ngo\n")],
        Status::Script(2, ScriptFault::BadHeader),
    ),
    (
        &[
            BEGUN,
            Words("post 0 g 00010203040506070809101112131415161718192021222324\n"),
        ],
        Status::Script(4, ScriptFault::OutOfRange),
    ),
    (
        &[BEGUN, Words("post 0 g 6\n")],
        Status::Script(4, ScriptFault::BadHex),
    ),
    (
        &[BEGUN, Words("down 0 4294967296\n")],
        Status::Script(4, ScriptFault::OutOfRange),
    ),
    (
        &[BEGUN, Words("scan 1\n")],
        Status::Script(4, ScriptFault::OutOfRange),
    ),
    (
        &[BEGUN, Times(100_001, "pack 0\n")],
        Status::Script(100_004, ScriptFault::TooManyLines),
    ),
    (
        &[
            BEGUN,
            Times(95_321, "post 0 g -\n"),
            Words("tick\ntick\n\n"),
        ],
        Status::TooLong,
    ),
    (
        &[Times(1_048_576, "\n")],
        Status::Script(1, ScriptFault::BadHeader),
    ),
    (&[Times(1_048_577, "\n")], Status::TooLong),
];

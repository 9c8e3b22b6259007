//! What the program can be asked for.

/// The greatest number of records that `replay K` may name.
pub const MAX_REPLAYED: u32 = 16_777_215;

/// What the program is to do. C, the number of a client, is from 0 to 15, CLIENTS from 1 to 16, STEPS and TURNS from 1 to 100,000.
#[derive(Clone, Copy)]
pub enum Command {
    /// `run`: a script is read, and its report is written.
    Run,
    /// `alone C`: a script is read, and what a server writes for its packs that serves client C alone.
    Alone { client: u8 },
    /// `big SEED CLIENTS STEPS`: a script is made of these numbers and run, and what its report has is counted.
    Big { seed: u32, clients: u8, steps: u32 },
    /// `threads`: a script is read and run in threads, and the text of its race is written.
    Threads,
    /// `predict C`: a script is read, and what a prediction of client C's player has is written.
    Predict { client: u8 },
    /// `demo C`: a script is read, and the demo of client C is written.
    Demo { client: u8 },
    /// `replay`: a demo is read, and told record by record.
    Replay,
    /// `replay K`: a demo is read, and what is shown after its first K records is told. K is from 0 to 16,777,215.
    ReplayAt { count: u32 },
    /// `relay`: a relay script is read, and the report of its relay is written.
    Relay,
    /// `serve SEED CLIENTS TURNS`: a match that is made of these numbers is served to those who say hello.
    Serve { seed: u32, clients: u8, turns: u32 },
    /// `join TURNS`: a match is joined that is served at this machine.
    Join { turns: u32 },
}

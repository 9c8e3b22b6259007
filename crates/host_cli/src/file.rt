//! The script in files: a further one is begun where one has grown long.
ghost use Rattle.std.specs.Prelude.{◌≡◌, ◌<◌, ◌≤◌, None, IfOk, length};
ghost use Rattle.std.specs.Io.Buffered.{writer_buffer};

use std::alloc::Global;
use std::fmt::Write as Text;
use std::fs::{self, Files};
use std::io::{BufWriter, Write};
use tn_outside::{Failed, Sink, StdSink};

/// Bytes of a file, after which the next line begins a further one.
const FILE_BYTES: u64 = 16_777_216;

/// What ends a line.
const NEWLINE: u8 = 10;

/// How many bytes are gathered before the system is called.
const GATHERED_BYTES: usize = 65_536;

/// Files `tribes-PORT.match`, `tribes-PORT.match.1` and so on, one after the other the text that was written. It tells no contents.
#[derive(Drop)]
pub(crate) struct FileSink<'a, R: Files> {
    files: &'a R,
    alloc: Global,
    port: u16,
    // so many files were full
    full: u32,
    out: StdSink<R::File>,
    // bytes in the file that is written
    count: u64,
    // whether the last piece ended a line
    is_line: bool,
    faults: u64,
}

/// Makes the file of a port that comes after so many.
fn begun<R: Files>(
    files: &R,
    alloc: Global,
    port: u16,
    full: u32,
) -> Result<StdSink<R::File>, Failed> {
    let mut name = String::new(alloc);
    let named = if full == 0 {
        write!(name, "tribes-{port}.match")
    } else {
        write!(name, "tribes-{port}.match.{full}")
    };
    if named.is_err() {
        return Err(Failed);
    }
    let Ok(file) = fs::create(files, name.as_str()) else {
        return Err(Failed);
    };
    match BufWriter::with_capacity(alloc, GATHERED_BYTES, file) {
        Ok(out) => Ok(StdSink::new(out)),
        Err(_) => Err(Failed),
    }
}

/// Whether the first bytes of a piece, so many, are all of it and end a line.
fn ends_line(piece: &[u8], count: usize) -> bool {
    count == piece.len() && piece.last() == Some(&NEWLINE)
}

impl<'a, R: Files> FileSink<'a, R> {
    /// The first file of a port, in the folder in which the program runs; one that is there is written over.
    pub(crate) fn new(files: &'a R, alloc: Global, port: u16) -> Result<FileSink<'a, R>, Failed> {
        let out = begun(files, alloc, port, 0)?;
        Ok(FileSink {
            files,
            alloc,
            port,
            full: 0,
            out,
            count: 0,
            is_line: true,
            faults: 0,
        })
    }

    // Begins the next file.
    fn turn_over(&mut self) -> Result<(), Failed>
        ensures { self.new.faults ≡ self.old.faults }
    {
        self.out.flush()?;
        let full = self.full.saturating_add(1);
        self.out = begun(self.files, self.alloc, self.port, full)?;
        self.full = full;
        self.count = 0;
        Ok(())
    }

    // Writes to the file whose turn it is.
    fn put(&mut self, piece: &[u8]) -> Result<usize, Failed>
        ensures bound { IfOk result (λ k. k ≤ length piece.now) }
        ensures some { IfOk result (λ k. 0 < length piece.now → 0 < k) }
        ensures faults { self.new.faults ≡ self.old.faults }
    {
        if self.is_line && self.count >= FILE_BYTES {
            self.turn_over()?;
        }
        self.out.write(piece)
    }

    /// Hands on what was gathered.
    pub(crate) fn close(&mut self) -> Result<(), Failed> {
        self.out.flush()
    }
}

impl<R: Files> Sink for FileSink<'_, R> {
    ghost written = { λ _. None };

    ghost gathered = { λ s. writer_buffer s.out.inner };

    ghost faults = { λ s. s.faults };

    fn write(&mut self, piece: &[u8]) -> Result<usize, Failed> {
        let faults = self.faults;
        match self.put(piece) {
            Ok(count) => {
                self.count = self.count.saturating_add(count as u64);
                self.is_line = ends_line(piece, count);
                Ok(count)
            }
            Err(_) => {
                self.faults = faults.saturating_add(1);
                Err(Failed)
            }
        }
    }

    fn flush(&mut self) -> Result<(), Failed> {
        let faults = self.faults;
        match self.out.flush() {
            Ok(()) => Ok(()),
            Err(_) => {
                self.faults = faults.saturating_add(1);
                Err(Failed)
            }
        }
    }
}

// A writer that keeps what is written.
ghost use Rattle.std.specs.Prelude.{◌≡◌};

use std::alloc::{AllocError, Global};
use std::cell::Cell;
use std::io::{self, Write};

/// A line that was kept.
#[derive(Clone, Copy)]
pub struct KeptLine {
    /// What the counter said when it ended.
    pub count: u64,
    /// Where it ends, before its line feed.
    pub end: usize,
}

/// What was kept.
#[derive(Drop)]
pub struct Kept {
    /// The bytes.
    pub text: Vec<u8>,
    /// The lines that ended in them.
    pub lines: Vec<KeptLine>,
}

impl Kept {
    // Adds a byte.
    fn push(&mut self, byte: u8, count: u64) -> Result<(), AllocError> {
        if byte == b'\n' {
            let end = self.text.len();
            self.lines.push(KeptLine { count, end })?;
        }
        self.text.push(byte)?;
        Ok(())
    }

    // Adds these bytes, until so many are kept.
    fn keep(&mut self, bytes: &[u8], count: u64, most: usize) -> Result<(), AllocError> {
        for byte in bytes {
            if self.text.len() < most {
                self.push(*byte, count)?;
            }
        }
        Ok(())
    }
}

/// A writer that hands everything on, and keeps a front of what was taken, with what a counter says at the end of each line.
#[derive(Drop)]
pub struct KeepingWriter<'a, W: Write + Drop> {
    out: W,
    count: &'a Cell<u64>,
    most: usize,
    kept: Option<Kept>,
}

impl<'a, W: Write + Drop> KeepingWriter<'a, W> {
    /// A writer over this one, which keeps so many bytes at most.
    pub fn new(alloc: Global, out: W, count: &'a Cell<u64>, most: usize) -> KeepingWriter<'a, W>
        ensures { result.out ≡ out }
    {
        let kept = Some(Kept {
            text: Vec::new(alloc),
            lines: Vec::new(alloc),
        });
        KeepingWriter {
            out,
            count,
            most,
            kept,
        }
    }

    // Keeps these bytes; where memory is refused, nothing any more.
    fn keep(&mut self, bytes: &[u8])
        ensures { self.new.out ≡ self.old.out }
    {
        let count = self.count.get();
        if let Some(kept) = &mut self.kept {
            if kept.keep(bytes, count, self.most).is_err() {
                self.kept = None;
            }
        }
    }

    /// The writer inside, and what was kept, unless memory was refused for it.
    pub fn into_parts(self) -> (W, Option<Kept>)
        ensures { result.0 ≡ self.entry.out }
    {
        let KeepingWriter {
            out,
            count: _,
            most: _,
            kept,
        } = self;
        (out, kept)
    }
}

impl<W: Write + Drop> Write for KeepingWriter<'_, W> {
    ghost contents = { λ w. W.contents w.out };

    fn write(&mut self, buf: &[u8]) -> io::Result<usize> {
        let count = self.out.write(buf)?;
        self.keep(&buf[..count]);
        Ok(count)
    }

    fn flush(&mut self) -> io::Result<()> {
        self.out.flush()
    }
}

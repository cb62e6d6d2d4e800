// Answers in hand, written many at a time. Their memory is fixed: a BufWriter of std would allocate.
ghost use Rattle.std.specs.Prelude.{◌≡◌, ◌++◌, ◌+◌, ◌≤◌, [], List, ℕ, OnOk, length, replicate};
ghost use Rattle.frames.specs.Serving.{served, serve_of};
ghost use Rattle.program.specs.Lines.{joined_line};

use crate::input::Session;
use arrayvec::ArrayVec;
use std::io::{self, Write};

// How many bytes one read takes at most, and one write: many lines, so that a file takes few calls.
pub const CHUNK: usize = 65536;

#[derive(Drop)]
pub struct Output<W> {
    writer: W,
    bytes: ArrayVec<u8, CHUNK>,
}

impl<W: Write> Output<W> {
    pub fn over(writer: W) -> Self
        ensures { result.bytes.items ≡ [] }
    {
        Output {
            writer,
            bytes: ArrayVec::new(),
        }
    }

    // The answer to a line behind those in hand, which are written first where it finds no room.
    // It is printed where it is to stand: a copy waits for bytes that were written one by one just before.
    pub fn put(&mut self, session: &mut Session, part: &[u8]) -> io::Result<()>
        ensures answered { OnOk result ((before answer : List ℕ) × (self.new.bytes.items ≡ before ++ answer) × (served session.new.head session.new.words session.new.counts answer ≡ serve_of session.old.head session.old.words session.old.counts (joined_line session.old.line.items part.now) (replicate 40 0))) }
        ensures done { OnOk result (session.new.line.items ≡ []) }
    {
        self.make_room()?;
        let at = self.bytes.len();
        let _ = self.bytes.try_extend_from_slice(&[0; 40]);
        session.answer(part, &mut self.bytes.as_mut_slice()[at..]);
        Ok(())
    }

    // Room for one answer: those in hand are written where they leave none.
    fn make_room(&mut self) -> io::Result<()>
        ensures { OnOk result (length self.new.bytes.items + 40 ≤ CHUNK) }
    {
        if self.bytes.remaining_capacity() < 40 {
            self.flush()?;
        }
        Ok(())
    }

    // The answers in hand, written.
    pub fn flush(&mut self) -> io::Result<()>
        ensures { OnOk result (self.new.bytes.items ≡ []) }
    {
        self.writer.write_all(&self.bytes)?;
        self.bytes.clear();
        Ok(())
    }
}

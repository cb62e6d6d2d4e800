// Input cut into lines. A line that a read leaves unfinished is kept: of a line over 36 bytes only 37, which are no frame either.
ghost use Rattle.std.specs.Prelude.{◌≡◌, ◌++◌, [], take, replicate, OnOk};
ghost use Rattle.frames.specs.Serving.{served, serve_of};
ghost use Rattle.register.specs.Head.{head_of};
ghost use Rattle.program.specs.Lines.{joined_line};

use crate::output::{CHUNK, Output};
use arrayvec::ArrayVec;
use memchr::memchr;
use register::Head;
use std::io::{self, Read, Write};
use std::ops::ControlFlow;

// What is held from read to read: the register with its room, in two arrays as the calls take it, and the line in hand.
#[derive(Drop)]
pub struct Session {
    head: Head,
    words: [u64; 4096],
    counts: [u16; 2048],
    line: ArrayVec<u8, 37>,
}

impl Session {
    // Before the first accepted clear the head is all zeros.
    pub fn new() -> Self
        ensures head { result.head ≡ head_of 0 0 0 0 }
        ensures room { (result.words ≡ replicate 4096 0) × (result.counts ≡ replicate 2048 0) }
        ensures line { result.line.items ≡ [] }
    {
        Session {
            head: Head::cleared(0, Head::REMAINDER, 0),
            words: [0; 4096],
            counts: [0; 2048],
            line: ArrayVec::new(),
        }
    }

    // The line in hand with a part behind it, as far as there is room.
    fn keep(&mut self, part: &[u8])
        ensures { self.new ≡ record self.old { line = record { items = take 37 (self.old.line.items ++ part.now) } } }
    {
        let room = self.line.remaining_capacity().min(part.len());
        let _ = self.line.try_extend_from_slice(&part[..room]);
    }

    // The answer to a whole line, in a lent buffer.
    fn serve(&mut self, line: &[u8], buffer: &mut [u8])
        ensures answered { served self.new.head self.new.words self.new.counts buffer.new ≡ serve_of self.old.head self.old.words self.old.counts line.now buffer.old }
        ensures same { self.new.line ≡ self.old.line }
    {
        // Field by field: a copy of the whole head reads its padding in other parts than it was written, and waits for it.
        let Head {
            slots,
            salt,
            live,
            rule,
        } = frames::serve(self.head, &mut self.words, &mut self.counts, line, buffer);
        self.head = Head {
            slots,
            salt,
            live,
            rule,
        };
    }

    // The answer to a line: a part of the input, behind what is kept of the line.
    pub fn answer(&mut self, part: &[u8], buffer: &mut [u8])
        ensures answered { served self.new.head self.new.words self.new.counts buffer.new ≡ serve_of self.old.head self.old.words self.old.counts (joined_line self.old.line.items part.now) buffer.old }
        ensures done { self.new.line.items ≡ [] }
    {
        if self.line.is_empty() {
            self.serve(part, buffer);
            return;
        }
        self.keep(part);
        let line = self.line.take();
        self.serve(&line, buffer);
    }

    // The whole lines of one read, answered and written; what is left is kept.
    fn feed<W: Write>(&mut self, input: &[u8], output: &mut Output<W>) -> io::Result<()> {
        let mut rest = input;
        while let Some(end) = memchr(b'\n', rest) {
            let (line, left) = rest.split_at(end);
            output.put(self, line)?;
            rest = &left[1..];
        }
        self.keep(rest);
        output.flush()
    }

    // The input has ended: a last line without a newline is read if it has bytes.
    fn finish<W: Write>(&mut self, output: &mut Output<W>) -> io::Result<()>
        ensures { OnOk result (self.new.line.items ≡ []) }
    {
        if self.line.is_empty() {
            return Ok(());
        }
        output.put(self, &[])?;
        output.flush()
    }

    // One read, and the answers to it. A failing read and a closed output are errors: they end the program, as the input's end does.
    pub fn turn<R: Read, W: Write>(
        &mut self,
        reader: &mut R,
        output: &mut Output<W>,
    ) -> io::Result<ControlFlow<()>>
        ensures { result ≡ Ok (ControlFlow.Break tt) → self.new.line.items ≡ [] }
    {
        let mut input = [0; CHUNK];
        let n = reader.read(&mut input)?;
        if n == 0 {
            self.finish(output)?;
            return Ok(ControlFlow::Break(()));
        }
        self.feed(&input[..n], output)?;
        Ok(ControlFlow::Continue(()))
    }
}

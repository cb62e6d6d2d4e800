// The ten calls of the worked session, the twelve marked cases and the limits of M, over the public calls.
#![tactic(auto)]

ghost use Rattle.std.specs.Prelude.{◌≤◌};

use register::{Answer, Census, Head};
use std::{fmt, io};

// Number, slot, entry, probes, moved, live, each in hexadecimal of fixed width.
#[derive(Clone, Copy)]
struct AnswerLine(Answer);

impl fmt::Display for AnswerLine {
    fn fmt<W: fmt::Write>(&self, f: &mut fmt::Formatter<W>) -> fmt::Result {
        let a = self.0;
        write!(f, "{:02x} {:04x} {:016x}", a.number, a.slot, a.entry)?;
        write!(f, " {:04x} {:04x} {:04x}", a.probes, a.moved, a.head.live)
    }
}

// Number, greatest count, stored total and absent total.
#[derive(Clone, Copy)]
struct CensusLine(Census);

impl fmt::Display for CensusLine {
    fn fmt<W: fmt::Write>(&self, f: &mut fmt::Formatter<W>) -> fmt::Result {
        let c = self.0;
        write!(
            f,
            "{:02x} {:04x} {:08x} {:08x}",
            c.number, c.greatest, c.stored, c.absent
        )
    }
}

// A register of M slots under rule 0, and the W = 2M words that it lends to each call.
#[derive(Drop)]
struct Register<const W: usize, const M: usize> {
    head: Head,
    words: [u64; W],
    counts: [u16; M],
}

impl<const W: usize, const M: usize> Register<W, M> {
    fn new() -> Self {
        Register {
            head: Head::cleared(0, Head::REMAINDER, 0),
            words: [0; W],
            counts: [0; M],
        }
    }

    fn clear(&mut self) -> AnswerLine {
        let a = register::clear(
            self.head,
            M,
            Head::REMAINDER,
            0,
            &mut self.words,
            &mut self.counts,
        );
        self.head = a.head;
        AnswerLine(a)
    }

    fn store(&mut self, identifier: u64, entry: u64) -> AnswerLine {
        let a = register::store(
            self.head,
            &mut self.words,
            &mut self.counts,
            identifier,
            entry,
        );
        self.head = a.head;
        AnswerLine(a)
    }

    fn remove(&mut self, identifier: u64) -> AnswerLine {
        let a = register::remove(self.head, &mut self.words, &mut self.counts, identifier);
        self.head = a.head;
        AnswerLine(a)
    }

    fn find(&self, identifier: u64) -> AnswerLine {
        AnswerLine(register::find(self.head, &self.words, &self.counts, identifier))
    }

    fn check(&self) -> AnswerLine {
        AnswerLine(register::check(self.head, &self.words, &self.counts))
    }

    fn census(&self) -> CensusLine {
        CensusLine(register::census(self.head, &self.words, &self.counts))
    }
}

// Eight slots, slot 0 first: the identifier, a colon, and the count.
impl fmt::Display for Register<16, 8> {
    fn fmt<W: fmt::Write>(&self, f: &mut fmt::Formatter<W>) -> fmt::Result {
        for i in 0..8 {
            write!(f, " {:02x}:{:x}", self.words[2 * i], self.counts[i])?;
        }
        Ok(())
    }
}

fn session(out: &impl Print) -> io::Result<()> {
    let mut register = Register::<16, 8>::new();
    println!(out; "{}", register.clear())?;
    let records = [
        (0x10, 0xa1),
        (0x08, 0xa2),
        (0x0f, 0xa3),
        (0x07, 0xa4),
        (0x01, 0xa5),
        (0x08, 0xa6),
    ];
    for (identifier, entry) in records {
        println!(out; "{}", register.store(identifier, entry))?;
    }
    println!(out; "{}", register.remove(0x07))?;
    println!(out; "{}", register.find(0x09))?;
    println!(out; "{}", register.check())
}

// P1: the two records in the order given.
fn two_alike(out: &impl Print, identifiers: [u64; 2]) -> io::Result<()> {
    let mut register = Register::<16, 8>::new();
    register.clear();
    for identifier in identifiers {
        register.store(identifier, 0);
    }
    println!(out; "P1{register}")
}

// P2 to P6 and P12: one register after another, and what is read of that of P4.
fn cluster(out: &impl Print) -> io::Result<()> {
    let mut register = Register::<16, 8>::new();
    register.clear();
    for identifier in [0x07, 0x0f, 0x08, 0x10] {
        register.store(identifier, 0);
    }
    println!(out; "P2{register}")?;
    register.store(0x01, 0);
    println!(out; "P3{register}")?;
    register.remove(0x07);
    println!(out; "P4{register}")?;
    println!(out; "P5 find 09: {}", register.find(0x09))?;
    println!(out; "P6 find 00: {}", register.find(0x00))?;
    println!(out; "P12 census: {}", register.census())
}

// P7: the one place of two slots.
fn full(out: &impl Print) -> io::Result<()> {
    let mut register = Register::<4, 2>::new();
    register.clear();
    println!(out; "P7 store 05: {}", register.store(0x05, 0xb1))?;
    println!(out; "P7 store 05: {}", register.store(0x05, 0xb2))?;
    println!(out; "P7 store 04: {}", register.store(0x04, 0xb3))
}

// P8 and P9: two slots, words 0, counts 2 and 2, live 0.
fn damaged(out: &impl Print) -> io::Result<()> {
    let register = Register::<4, 2> {
        head: Head::cleared(2, Head::REMAINDER, 0),
        words: [0; 4],
        counts: [2; 2],
    };
    println!(out; "P8 find 01: {}", register.find(0x01))?;
    println!(out; "P9 find 00: {}", register.find(0x00))
}

// P10 and P11: the identifier of all ones, and a remove from a cleared register.
fn cleared(out: &impl Print) -> io::Result<()> {
    let mut register = Register::<16, 8>::new();
    register.clear();
    println!(out;
        "P10 store ffffffffffffffff: {}",
        register.store(u64::MAX, 0xb4)
    )?;
    register.clear();
    println!(out; "P11 remove 0d: {}", register.remove(0x0d))
}

// A clear with slices of 2M words and M counts; the old head has live count 7.
fn limit(out: &impl Print, m: usize) -> io::Result<()>
    requires { m ≤ 32769 }
{
    let mut words = [0u64; 65538];
    let mut counts = [0u16; 32769];
    let old = Head::cleared(0, Head::REMAINDER, 0).with_live(7);
    let a = register::clear(
        old,
        m,
        Head::REMAINDER,
        0,
        &mut words[..2 * m],
        &mut counts[..m],
    );
    println!(out; "clear M = {m:04x}: {}", AnswerLine(a))
}

fn main(rt: HostRuntime) -> io::Result<()> {
    session(&rt)?;
    two_alike(&rt, [0x08, 0x10])?;
    two_alike(&rt, [0x10, 0x08])?;
    cluster(&rt)?;
    full(&rt)?;
    damaged(&rt)?;
    cleared(&rt)?;
    limit(&rt, 1)?;
    limit(&rt, 2)?;
    limit(&rt, 32768)?;
    limit(&rt, 32769)
}

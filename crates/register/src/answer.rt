// What comes back: one struct for every call but census, which has its own.
ghost use Rattle.std.specs.Prelude.{◌≡◌};
ghost use Rattle.register.specs.Answers.{number_of, refusal, done_answer, absent_answer};
ghost use Rattle.register.specs.Census.{census_answer};

use crate::head::Head;
use crate::refusal::Refusal;

// In both structs the number is a byte because C reads it: inside, a refusal is a `Refusal`, and 0 is done.
#[repr(C)]
#[derive(Clone, Copy)]
pub struct Answer {
    pub number: u8,
    pub slot: usize,
    pub entry: u64,
    pub probes: usize,
    pub moved: usize,
    pub head: Head,
}

#[repr(C)]
#[derive(Clone, Copy)]
pub struct Census {
    pub number: u8,
    pub greatest: usize,
    pub stored: usize,
    pub absent: usize,
    pub head: Head,
}

impl Answer {
    // A refusal: zeros, and the given head. Any byte is taken, as it was: a `Refusal` alone would ask more of callers.
    pub fn refused(number: u8, head: Head) -> Self
        ensures { result ≡ refusal number head }
    {
        Answer {
            number,
            ..Answer::done(head)
        }
    }

    // Done with zeros, as clear and check answer.
    pub fn done(head: Head) -> Self
        ensures { result ≡ done_answer head }
    {
        Answer {
            number: 0,
            slot: 0,
            entry: 0,
            probes: 0,
            moved: 0,
            head,
        }
    }

    // Absent: the slot and the p at which the walk ended.
    pub fn absent(head: Head, slot: usize, p: usize) -> Self
        ensures { result ≡ absent_answer head slot p }
    {
        Answer {
            slot,
            probes: p,
            ..Refusal::Absent.answer(head)
        }
    }
}

impl Refusal {
    // The refusal as a call answers it: zeros, and the given head.
    pub fn answer(self, head: Head) -> Answer
        ensures { result ≡ refusal (number_of self) head }
    {
        Answer::refused(u8::from(self), head)
    }

    // The same for census.
    pub fn census(self, head: Head) -> Census
        ensures { result ≡ census_answer (number_of self) 0 0 0 head }
    {
        Census {
            number: u8::from(self),
            greatest: 0,
            stored: 0,
            absent: 0,
            head,
        }
    }
}

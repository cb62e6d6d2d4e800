// Why a call refuses. As a number each is document 01's.
ghost use Rattle.std.specs.Prelude.{◌≡◌};

#[derive(Clone, Copy, Debug, PartialEq, Eq)]
pub enum Refusal {
    BadHead = 1,
    BadLength = 2,
    AlreadyNamed = 3,
    Full = 4,
    Absent = 5,
    Damaged = 6,
    BadFrame = 7,
}

impl From<Refusal> for u8 {
    ghost use Rattle.register.specs.Answers.{number_of};

    ghost from_gives = { λ r n. n ≡ number_of r };

    fn from(refusal: Refusal) -> u8 {
        // A variant's number, which `as` gives and no `From`.
        refusal as u8
    }
}

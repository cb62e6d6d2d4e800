// A call, as a line asks for it. The rule is any byte: one that is no rule is answered 1 by the register.
#[derive(Clone, Copy, Debug, PartialEq, Eq)]
pub enum Frame {
    Clear { slots: usize, rule: u8, salt: u64 },
    Store { identifier: u64, entry: u64 },
    Find { identifier: u64 },
    Remove { identifier: u64 },
    Change { identifier: u64, entry: u64 },
    Check,
}

// The head of a register: slot count, home rule, salt, live count. Passed and returned by value; any values may come in.
ghost use Rattle.std.specs.Prelude.{◌≡◌};
ghost use Rattle.register.specs.Head.{good_head, most_live_of, head_of};

// The rule is a byte and no enum: C may pass one that is no rule, and a bad head is refused by its values.
#[repr(C)]
#[derive(Clone, Copy)]
pub struct Head {
    pub slots: usize,
    pub salt: u64,
    pub live: usize,
    pub rule: u8,
}

impl Head {
    // The limits of the slot count, and the two home rules.
    pub const LEAST: usize = 2;

    pub const MOST: usize = 32768;

    pub const REMAINDER: u8 = 0;

    pub const HASHED: u8 = 1;

    // The head of a cleared register.
    pub fn cleared(slots: usize, rule: u8, salt: u64) -> Self
        ensures { result ≡ head_of slots rule salt 0 }
    {
        Head {
            slots,
            salt,
            live: 0,
            rule,
        }
    }

    // The same settings with another live count.
    pub fn with_live(self, live: usize) -> Self
        ensures { result ≡ head_of self.slots self.rule self.salt live }
    {
        Head { live, ..self }
    }

    // The greatest number of live records: one slot is always empty.
    pub fn most_live(self) -> usize
        ensures { result ≡ most_live_of self }
    {
        self.slots.saturating_sub(1)
    }

    #[tactic(auto, unfolding(crate::specs::Head::good_head))]
    pub fn is_good(self) -> bool
        ensures { result ≡ good_head self }
    {
        Head::LEAST <= self.slots
            && self.slots <= Head::MOST
            && self.rule <= Head::HASHED
            && self.live <= self.most_live()
    }
}

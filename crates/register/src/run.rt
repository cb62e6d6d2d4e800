// How far a change reaches, known before anything is written; counts alone are read. As in the walk, the slot goes on beside k.
// They are no twins: a store's run also stops at a record that may not move.
ghost use Rattle.std.specs.Prelude.{◌≡◌, ◌<◌};
ghost use Rattle.arrangement.specs.Changes.{first_settled};
ghost use Rattle.register.specs.Private.{table_in, first_of};
ghost use Rattle.register.specs.Runs.{store_reach};

use crate::table::Opened;

impl Opened<'_> {
    // How many slots after s the first empty slot from s on lies, if every record before it may move one slot on.
    pub fn reach_empty(&self, s: usize) -> Option<usize>
        requires { s < self.now.head.slots }
        ensures { first_of result ≡ store_reach self.now.head.slots s (table_in self.now) }
    {
        let m = self.head.slots;
        let mut i = s;
        for k in 0..m {
            let c = self.count(i);
            if c == 0 {
                return Some(k);
            }
            if m - 1 <= c {
                return None;
            }
            i = self.next(i);
        }
        None
    }

    // How many slots after s the first of the slots that follow it lies whose count is 0 or 1.
    pub fn reach_settled(&self, s: usize) -> Option<usize>
        requires { s < self.now.head.slots }
        ensures { first_of result ≡ first_settled self.now.head.slots s (table_in self.now) }
    {
        let mut i = self.next(s);
        for k in 1..self.head.slots {
            if self.count(i) <= 1 {
                return Some(k);
            }
            i = self.next(i);
        }
        None
    }
}

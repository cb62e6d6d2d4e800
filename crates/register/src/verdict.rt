// check's judgement of each slot, from that slot and the one before it, and its count of the occupied slots.
ghost use Rattle.std.specs.Prelude.{◌≡◌, ◌<◌};
ghost use Rattle.arrangement.specs.Table.{occupied as occupied_of};
ghost use Rattle.register.specs.Private.{table_in};
ghost use Rattle.register.specs.Check.{is_slot_good as is_slot_good_of, are_slots_good as are_slots_good_of, behind_good};

use crate::home::home;
use crate::table::Opened;

// May a record with count c and identifier x stand behind count d with identifier y?
fn behind(d: usize, y: u64, c: usize, x: u64) -> bool
    requires { d < 65536 }
    ensures { result ≡ behind_good d y c x }
{
    c <= 1 || c <= d || (c == d + 1 && y < x)
}

impl Opened<'_> {
    #[tactic(auto, using(crate::proofs::Tests::tests, crate::proofs::Judged::place_on), unfolding(crate::specs::Check::is_slot_good))]
    fn is_slot_good(&self, i: usize) -> bool
        requires { i < self.now.head.slots }
        ensures { result ≡ is_slot_good_of self.now.head (table_in self.now) i }
    {
        let m = self.head.slots;
        let c = self.count(i);
        let x = self.identifier(i);
        if c == 0 {
            return x == 0 && self.entry(i) == 0;
        }
        if m - 1 < c || self.onward(home(&self.head, x), c - 1) != i {
            return false;
        }
        let b = self.prior(i);
        behind(self.count(b), self.identifier(b), c, x)
    }

    pub fn are_slots_good(&self) -> bool
        ensures { result ≡ are_slots_good_of self.now.head (table_in self.now) 0 self.now.head.slots }
    {
        (0..self.head.slots).all(|i| self.is_slot_good(i))
    }

    pub fn occupied(&self) -> usize
        ensures { result ≡ occupied_of self.now.head.slots (table_in self.now) }
    {
        // Summed, since a filter's branch at each slot takes ten times as long.
        self.counts.iter().map(|&c| usize::from(c != 0)).sum()
    }
}

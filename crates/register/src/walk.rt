// The walk for an identifier from its home.
ghost use Rattle.std.specs.Prelude.{◌≡◌, ◌<◌};
ghost use Rattle.arrangement.specs.Walk.{turn as turn_at, walk as walk_at};
ghost use Rattle.register.specs.Private.{table_in, turn_of, end_of};

use crate::table::Opened;
use std::cmp::Ordering;

// Where the walk ends: a slot and its p. Three arms with places, neither Option's shape nor Result's.
#[derive(Clone, Copy, Debug, PartialEq, Eq)]
pub enum End {
    Found(usize, usize),
    Absent(usize, usize),
    Endless,
}

impl Opened<'_> {
    // Where x at p stands to slot i's record: at it, before it, or behind it. A count decides alone unless it equals p; only then is the identifier read.
    #[tactic(auto, unfolding(arrangement::specs::Walk::turn))]
    pub fn look(&self, i: usize, p: usize, x: u64) -> Ordering
        requires { i < self.now.head.slots }
        ensures { turn_of result ≡ turn_at p x (table_in self.now i) }
    {
        // By tests and not by the counts' `cmp`: with that the walk of a nearly full table took a fifth to a half longer.
        let c = self.count(i);
        if c < p {
            Ordering::Less
        } else if p < c {
            Ordering::Greater
        } else {
            x.cmp(&self.identifier(i))
        }
    }

    pub fn walk(&self, home: usize, x: u64) -> End
        requires { home < self.now.head.slots }
        ensures { end_of result ≡ walk_at self.now.head.slots home x (table_in self.now) }
    {
        // The slot goes on beside p: reckoned from the home at each p, it made a nearly full table's walk up to a third slower. With `1..=` a miss took a tenth longer.
        let mut i = home;
        for p in 1..self.head.slots + 1 {
            match self.look(i, p, x) {
                Ordering::Equal => return End::Found(i, p),
                Ordering::Less => return End::Absent(i, p),
                Ordering::Greater => i = self.next(i),
            }
        }
        End::Endless
    }
}

// The two shifts: a store's run one slot on, a remove's run one slot back.
// They are no twins: the one moves the last record first and the other the first, and the free slot lies at the other end.
// A run is a slot and a length beside the register's slot count, so that no type of its own could hold its bounds.
ghost use Rattle.std.specs.Prelude.{◌≡◌, false, ℕ, ◌+◌, ◌*◌, ◌-◌, ◌≤◌, ◌<◌, get_or, set};
ghost use Rattle.arrangement.specs.Table.{onward};
ghost use Rattle.arrangement.specs.Changes.{any_far, stored, removed};
ghost use Rattle.register.specs.Private.{Kept, Leaves, table_in_mut};
ghost use Rattle.register.specs.Store.{cell_of};
ghost use Rattle.register.specs.Shifts.{lifted, shifted_on, shifted_back, Liftable};

use crate::table::OpenedMut;

impl OpenedMut<'_> {
    // Writes the three numbers of slot i.
    fn put(&mut self, i: usize, count: u16, identifier: u64, entry: u64)
        requires { i < self.old.head.slots }
        ensures kept { Kept self.old self.new }
        ensures words { self.new.words.now ≡ set (set self.old.words.now (2 * i) identifier) (2 * i + 1) entry }
        ensures counts { self.new.counts.now ≡ set self.old.counts.now i count }
    {
        self.words[2 * i] = identifier;
        self.words[2 * i + 1] = entry;
        self.counts[i] = count;
    }

    // The record of slot i moves to slot j, where it has another count.
    fn move_to(&mut self, i: usize, j: usize, count: u16)
        requires { (i < self.old.head.slots) × (j < self.old.head.slots) }
        ensures kept { Kept self.old self.new }
        ensures words { self.new.words.now ≡ set (set self.old.words.now (2 * j) (get_or self.old.words.now (2 * i) 0)) (2 * j + 1) (get_or self.old.words.now (2 * i + 1) 0) }
        ensures counts { self.new.counts.now ≡ set self.old.counts.now j count }
    {
        let identifier = self.words[2 * i];
        let entry = self.words[2 * i + 1];
        self.put(j, count, identifier, entry);
    }

    // The records of the slots from a up to before b move one slot on, the last one first; no slot lies around the end.
    fn lift(&mut self, a: usize, b: usize)
        requires { (a ≤ b) × (b < self.old.head.slots) × ((i : ℕ) → a ≤ i → i < b → get_or self.old.counts.now i 0 < 65535) }
        ensures { Leaves self.old self.new (lifted a b (table_in_mut self.old)) }
    {
        for j in (a..b).rev() {
            let count = self.counts[j] + 1;
            self.move_to(j, j + 1, count);
        }
    }

    // The k records from s on move one slot on: one lift, or one to either side of the end.
    fn shift_on(&mut self, s: usize, k: usize)
        requires { (s < self.old.head.slots) × (k < self.old.head.slots) × (any_far self.old.head.slots s (table_in_mut self.old) k ≡ false) }
        ensures { Leaves self.old self.new (shifted_on self.old.head.slots s k (table_in_mut self.old)) }
    {
        let m = self.head.slots;
        let far = s + k;
        if far < m {
            self.lift(s, far);
            return;
        }
        self.lift(0, far - m);
        let count = self.counts[m - 1] + 1;
        self.move_to(m - 1, 0, count);
        self.lift(s, m - 1);
    }

    // The k records after slot s move one slot back, the first one first; no slot lies around the end.
    fn lower(&mut self, s: usize, k: usize)
        requires { (s + k < self.old.head.slots) × Liftable self.old.head.slots s k (table_in_mut self.old) }
        ensures { Leaves self.old self.new (shifted_back self.old.head.slots s k (table_in_mut self.old)) }
    {
        for j in s..s + k {
            let count = self.counts[j + 1] - 1;
            self.move_to(j + 1, j, count);
        }
    }

    // The k records after slot s move one slot back, as one part or as one to either side of the end; the slot last vacated comes back.
    fn shift_back(&mut self, s: usize, k: usize) -> usize
        requires { (s < self.old.head.slots) × (k < self.old.head.slots) × Liftable self.old.head.slots s k (table_in_mut self.old) }
        ensures last { result ≡ onward self.old.head.slots s k }
        ensures shifted { Leaves self.old self.new (shifted_back self.old.head.slots s k (table_in_mut self.old)) }
    {
        let m = self.head.slots;
        let far = s + k;
        if far < m {
            self.lower(s, k);
            return far;
        }
        let last = far - m;
        self.lower(s, m - 1 - s);
        let count = self.counts[0] - 1;
        self.move_to(0, m - 1, count);
        self.lower(0, last);
        last
    }

    // A store's run opened at s: its k records move on, and the new record takes s with count p. A p below M fits a u16, so that `as` loses nothing.
    pub fn open_run(&mut self, s: usize, k: usize, p: usize, x: u64, v: u64)
        requires { (s < self.old.head.slots) × (k < self.old.head.slots) × (p < self.old.head.slots) × (any_far self.old.head.slots s (table_in_mut self.old) k ≡ false) }
        ensures { Leaves self.old self.new (stored self.old.head.slots s k (cell_of p x v) (table_in_mut self.old)) }
    {
        self.shift_on(s, k);
        self.put(s, p as u16, x, v);
    }

    // A remove's run closed at s: its k records move back, and the slot last vacated is zeroed.
    pub fn close_run(&mut self, s: usize, k: usize)
        requires { (s < self.old.head.slots) × (k < self.old.head.slots) × Liftable self.old.head.slots s k (table_in_mut self.old) }
        ensures { Leaves self.old self.new (removed self.old.head.slots s k (table_in_mut self.old)) }
    {
        let last = self.shift_back(s, k);
        self.put(last, 0, 0, 0);
    }
}

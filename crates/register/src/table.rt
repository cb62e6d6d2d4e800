// A register past the opening: a head and the two slices that fit it, lent to be read or to be changed.
// Two types: one over `AsSlice` would repeat two bounds at each method, and `Kept`, which names the two `&mut`, could not be said of it. What only reads is said once, of `Opened`.
// That a slot lies below the slot count is asked at each method: it is said of an index and a register at once, and so is no type's invariant.
ghost use Rattle.std.specs.Prelude.{◌≡◌, ◌+◌, ◌*◌, ◌≤◌, ◌<◌, get_or};
ghost use Rattle.arrangement.specs.Table.{onward as onward_of};
ghost use Rattle.arrangement.specs.Changes.{next as next_of, prior as prior_of};
ghost use Rattle.register.specs.Lent.{Lent};

use crate::head::Head;

#[derive(Clone, Copy)]
pub struct Opened<'a> {
    pub head: Head,
    pub words: &'a [u64],
    pub counts: &'a [u16],
    pub ghost lent: { Lent head.slots words.now counts.now },
    pub ghost room: { head.live < head.slots },
}

#[derive(Drop)]
pub struct OpenedMut<'a> {
    pub head: Head,
    pub words: &'a mut [u64],
    pub counts: &'a mut [u16],
    pub ghost lent: { Lent head.slots words.now counts.now },
    pub ghost room: { head.live < head.slots },
}

impl Opened<'_> {
    pub fn count(&self, i: usize) -> usize
        requires { i < self.now.head.slots }
        ensures { (result ≡ get_or self.now.counts.now i 0) × (result < 65536) }
    {
        usize::from(self.counts[i])
    }

    pub fn identifier(&self, i: usize) -> u64
        requires { i < self.now.head.slots }
        ensures { result ≡ get_or self.now.words.now (2 * i) 0 }
    {
        self.words[2 * i]
    }

    pub fn entry(&self, i: usize) -> u64
        requires { i < self.now.head.slots }
        ensures { result ≡ get_or self.now.words.now (2 * i + 1) 0 }
    {
        self.words[2 * i + 1]
    }

    // The slot after slot i, around the end by comparison.
    pub fn next(&self, i: usize) -> usize
        requires { i < self.now.head.slots }
        ensures { (result ≡ next_of self.now.head.slots i) × (result < self.now.head.slots) }
    {
        let j = i + 1;
        if j < self.head.slots { j } else { 0 }
    }

    // The slot before slot i, around the end by comparison. Reckoned as M-1 slots on, it made check up to a quarter slower.
    pub fn prior(&self, i: usize) -> usize
        requires { i < self.now.head.slots }
        ensures { (result ≡ prior_of self.now.head.slots i) × (result < self.now.head.slots) }
    {
        if i == 0 { self.head.slots - 1 } else { i - 1 }
    }

    // The slot k slots on from slot s, around the end by comparison.
    pub fn onward(&self, s: usize, k: usize) -> usize
        requires { (s < self.now.head.slots) × (k ≤ self.now.head.slots) }
        ensures { (result ≡ onward_of self.now.head.slots s k) × (result < self.now.head.slots) }
    {
        let m = self.head.slots;
        let i = s + k;
        if i < m { i } else { i - m }
    }
}

impl OpenedMut<'_> {
    // The same register, to be read.
    pub fn view(&self) -> Opened<'_>
        ensures head { result.head ≡ self.now.head }
        ensures words { result.words.now ≡ self.now.words.now }
        ensures counts { result.counts.now ≡ self.now.counts.now }
    {
        Opened {
            head: self.head,
            words: &*self.words,
            counts: &*self.counts,
        }
    }
}

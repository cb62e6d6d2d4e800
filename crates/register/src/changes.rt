// A store and a remove at the walk's end: nothing is written before every refusal is excluded.
ghost use Rattle.std.specs.Prelude.{◌≡◌, ◌≤◌, ◌<◌};
ghost use Rattle.register.specs.Answers.{out};
ghost use Rattle.register.specs.Private.{Kept, answered};
ghost use Rattle.register.specs.Store.{store_at_of};
ghost use Rattle.register.specs.Remove.{remove_at_of};

use crate::answer::Answer;
use crate::refusal::Refusal;
use crate::table::OpenedMut;

impl OpenedMut<'_> {
    // At the walk's absent slot s, with p.
    pub fn store_at(&mut self, x: u64, v: u64, s: usize, p: usize) -> Result<Answer, Refusal>
        requires { (s < self.old.head.slots) × (p ≤ self.old.head.slots) }
        ensures kept { Kept self.old self.new }
        ensures out { out (answered self.old.head result) self.new.words.now self.new.counts.now ≡ store_at_of self.old.head self.old.words.now self.old.counts.now x v s p }
    {
        let head = self.head;
        if head.live == head.most_live() {
            return Err(Refusal::Full);
        }
        if p == head.slots {
            return Err(Refusal::Damaged);
        }
        let k = self.view().reach_empty(s).ok_or(Refusal::Damaged)?;
        self.open_run(s, k, p, x, v);
        Ok(Answer {
            slot: s,
            entry: v,
            probes: p,
            moved: k,
            ..Answer::done(head.with_live(head.live + 1))
        })
    }

    // At the walk's found slot s, with p.
    pub fn remove_at(&mut self, s: usize, p: usize) -> Result<Answer, Refusal>
        requires { s < self.old.head.slots }
        ensures kept { Kept self.old self.new }
        ensures out { out (answered self.old.head result) self.new.words.now self.new.counts.now ≡ remove_at_of self.old.head self.old.words.now self.old.counts.now s p }
    {
        let head = self.head;
        if head.live == 0 {
            return Err(Refusal::Damaged);
        }
        let entry = self.view().entry(s);
        let e = self.view().reach_settled(s).ok_or(Refusal::Damaged)?;
        let moved = e - 1;
        self.close_run(s, moved);
        Ok(Answer {
            slot: s,
            entry,
            probes: p,
            moved,
            ..Answer::done(head.with_live(head.live - 1))
        })
    }
}

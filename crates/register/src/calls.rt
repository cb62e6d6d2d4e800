// Each call as a result: a refusal that carries nothing is an Err, and `?` passes it on.
// The head and the two slices stand side by side until the opening has tested them: the C interface lends them so.
ghost use Rattle.std.specs.Prelude.{◌≡◌, length, replicate};
ghost use Rattle.register.specs.Answers.{out};
ghost use Rattle.register.specs.Clear.{clear_of};
ghost use Rattle.register.specs.Find.{find_of};
ghost use Rattle.register.specs.Store.{store_of};
ghost use Rattle.register.specs.Remove.{remove_of};
ghost use Rattle.register.specs.Change.{change_of};
ghost use Rattle.register.specs.Check.{check_of};
ghost use Rattle.register.specs.Census.{census_of};
ghost use Rattle.register.specs.Private.{answered, numbered, counted};
ghost use Rattle.register.specs.declared.head.Head.{Head as HeadOf};

use crate::answer::{Answer, Census};
use crate::head::Head;
use crate::home::home;
use crate::opening::opening;
use crate::refusal::Refusal;
use crate::table::{Opened, OpenedMut};
use crate::walk::End;

// Both slices zeroed, whatever their lengths.
fn zero(words: &mut [u64], counts: &mut [u16])
    ensures words { words.new ≡ replicate (length words.old) 0 }
    ensures counts { counts.new ≡ replicate (length counts.old) 0 }
{
    words.fill(0);
    counts.fill(0);
}

#[tactic(auto, using(crate::proofs::Opened::refused), unfolding(crate::specs::Clear::clear_of))]
pub fn clear(
    slots: usize,
    rule: u8,
    salt: u64,
    words: &mut [u64],
    counts: &mut [u16],
) -> Result<Answer, Refusal>
    ensures { (old : HeadOf) → out (answered old result) words.new counts.new ≡ clear_of old slots rule salt words.old counts.old }
{
    let head = Head::cleared(slots, rule, salt);
    opening(head, words.len(), counts.len())?;
    zero(words, counts);
    Ok(Answer::done(head))
}

#[tactic(auto, using(crate::proofs::Opened::refused), unfolding(crate::specs::Find::find_of))]
pub fn find(head: Head, words: &[u64], counts: &[u16], x: u64) -> Result<Answer, Refusal>
    ensures { answered head result ≡ find_of head words.now counts.now x }
{
    let opened = Opened::open(head, words, counts)?;
    match opened.walk(home(&head, x), x) {
        End::Found(slot, p) => Ok(Answer {
            slot,
            entry: opened.entry(slot),
            probes: p,
            ..Answer::done(head)
        }),
        End::Absent(slot, p) => Ok(Answer::absent(head, slot, p)),
        End::Endless => Err(Refusal::Damaged),
    }
}

#[tactic(auto, using(crate::proofs::Opened::refused), unfolding(crate::specs::Store::store_of))]
pub fn store(
    head: Head,
    words: &mut [u64],
    counts: &mut [u16],
    x: u64,
    v: u64,
) -> Result<Answer, Refusal>
    ensures { out (answered head result) words.new counts.new ≡ store_of head words.old counts.old x v }
{
    opening(head, words.len(), counts.len())?;
    let mut opened = OpenedMut {
        head,
        words,
        counts,
    };
    match opened.view().walk(home(&head, x), x) {
        End::Found(slot, p) => Ok(Answer {
            slot,
            entry: opened.view().entry(slot),
            probes: p,
            ..Refusal::AlreadyNamed.answer(head)
        }),
        End::Absent(slot, p) => opened.store_at(x, v, slot, p),
        End::Endless => Err(Refusal::Damaged),
    }
}

#[tactic(auto, using(crate::proofs::Opened::refused), unfolding(crate::specs::Remove::remove_of))]
pub fn remove(head: Head, words: &mut [u64], counts: &mut [u16], x: u64) -> Result<Answer, Refusal>
    ensures { out (answered head result) words.new counts.new ≡ remove_of head words.old counts.old x }
{
    opening(head, words.len(), counts.len())?;
    let mut opened = OpenedMut {
        head,
        words,
        counts,
    };
    match opened.view().walk(home(&head, x), x) {
        End::Found(slot, p) => opened.remove_at(slot, p),
        End::Absent(slot, p) => Ok(Answer::absent(head, slot, p)),
        End::Endless => Err(Refusal::Damaged),
    }
}

#[tactic(auto, using(crate::proofs::Opened::refused), unfolding(crate::specs::Change::change_of))]
pub fn change(
    head: Head,
    words: &mut [u64],
    counts: &[u16],
    x: u64,
    v: u64,
) -> Result<Answer, Refusal>
    ensures { out (answered head result) words.new counts.now ≡ change_of head words.old counts.now x v }
{
    let opened = Opened::open(head, &*words, counts)?;
    match opened.walk(home(&head, x), x) {
        End::Found(slot, p) => {
            words[2 * slot + 1] = v;
            Ok(Answer {
                slot,
                entry: v,
                probes: p,
                ..Answer::done(head)
            })
        }
        End::Absent(slot, p) => Ok(Answer::absent(head, slot, p)),
        End::Endless => Err(Refusal::Damaged),
    }
}

#[tactic(auto, using(crate::proofs::Opened::refused), unfolding(crate::specs::Check::check_of, crate::specs::Check::accepts))]
pub fn check(head: Head, words: &[u64], counts: &[u16]) -> Result<(), Refusal>
    ensures { numbered head result ≡ check_of head words.now counts.now }
{
    let opened = Opened::open(head, words, counts)?;
    if opened.are_slots_good() && opened.occupied() == head.live {
        Ok(())
    } else {
        Err(Refusal::Damaged)
    }
}

#[tactic(auto, using(crate::proofs::Opened::refused), unfolding(crate::specs::Census::census_of))]
pub fn census(head: Head, words: &[u64], counts: &[u16]) -> Result<Census, Refusal>
    ensures { counted head result ≡ census_of head words.now counts.now }
{
    let opened = Opened::open(head, words, counts)?;
    let stored = opened.total();
    Ok(Census {
        number: 0,
        greatest: opened.greatest(),
        stored,
        absent: stored + head.slots,
        head,
    })
}

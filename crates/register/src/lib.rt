// The job register: a Robin Hood table with true deletion over a head and two lent slices.
// Each call answers on every input: any head, slices of any length, a table of junk. A refusal writes nothing.
#![tactic(auto)]

mod answer;
mod calls;
mod changes;
mod head;
mod home;
mod opening;
mod refusal;
mod run;
mod shift;
mod sums;
mod table;
mod verdict;
mod walk;

ghost use Rattle.std.specs.Prelude.{◌≡◌};
ghost use Rattle.register.specs.Answers.{out};
ghost use Rattle.register.specs.Clear.{clear_of};
ghost use Rattle.register.specs.Find.{find_of};
ghost use Rattle.register.specs.Store.{store_of};
ghost use Rattle.register.specs.Remove.{remove_of};
ghost use Rattle.register.specs.Change.{change_of};
ghost use Rattle.register.specs.Check.{check_of};
ghost use Rattle.register.specs.Census.{census_of};

pub use answer::{Answer, Census};
pub use head::Head;
pub use refusal::Refusal;

// A line each, since each contract is named by README, docs/STATEMENTS.md and the theorem `tight`. Head and slices, identifier and entry stand side by side as C passes them: document 01, "The register".

// Both slices zeroed under new settings. The old head is only handed back when clear refuses.
pub fn clear(
    old: Head,
    slots: usize,
    rule: u8,
    salt: u64,
    words: &mut [u64],
    counts: &mut [u16],
) -> Answer
    ensures { out result words.new counts.new ≡ clear_of old slots rule salt words.old counts.old }
{
    calls::clear(slots, rule, salt, words, counts).unwrap_or_else(|refusal| refusal.answer(old))
}

// The slot, entry and probes of a live identifier.
pub fn find(head: Head, words: &[u64], counts: &[u16], identifier: u64) -> Answer
    ensures { result ≡ find_of head words.now counts.now identifier }
{
    calls::find(head, words, counts, identifier).unwrap_or_else(|refusal| refusal.answer(head))
}

// A new record, unless the identifier is live or the register full.
pub fn store(
    head: Head,
    words: &mut [u64],
    counts: &mut [u16],
    identifier: u64,
    entry: u64,
) -> Answer
    ensures { out result words.new counts.new ≡ store_of head words.old counts.old identifier entry }
{
    calls::store(head, words, counts, identifier, entry).unwrap_or_else(|refusal| refusal.answer(
        head,
    ))
}

// A live record taken out; those behind it move back.
pub fn remove(head: Head, words: &mut [u64], counts: &mut [u16], identifier: u64) -> Answer
    ensures { out result words.new counts.new ≡ remove_of head words.old counts.old identifier }
{
    calls::remove(head, words, counts, identifier).unwrap_or_else(|refusal| refusal.answer(head))
}

// A new entry for a live identifier.
pub fn change(head: Head, words: &mut [u64], counts: &[u16], identifier: u64, entry: u64) -> Answer
    ensures { out result words.new counts.now ≡ change_of head words.old counts.now identifier entry }
{
    calls::change(head, words, counts, identifier, entry).unwrap_or_else(|refusal| refusal.answer(
        head,
    ))
}

// Is the table the proper arrangement of as many records as the head says?
pub fn check(head: Head, words: &[u64], counts: &[u16]) -> Answer
    ensures { result ≡ check_of head words.now counts.now }
{
    // One answer with either number: made for each way apart, it was copied twice more, and the check of two slots took 1.6 times as long.
    let number = calls::check(head, words, counts).map_or_else(|refusal| u8::from(refusal), |()| 0);
    Answer::refused(number, head)
}

// The greatest count, the stored total and the absent total, of any table.
pub fn census(head: Head, words: &[u64], counts: &[u16]) -> Census
    ensures { result ≡ census_of head words.now counts.now }
{
    calls::census(head, words, counts).unwrap_or_else(|refusal| refusal.census(head))
}

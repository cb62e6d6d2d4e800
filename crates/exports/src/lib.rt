// The calls for C and Rust, which need a function each, by its name, and pass the head and the two slices side by side. Each is total, and its statement is the library's own.
#![tactic(auto)]

ghost use Rattle.std.specs.Prelude.{◌≡◌};
ghost use Rattle.hash.specs.Fnv.{fnv, key_hash};
ghost use Rattle.register.specs.Answers.{out};
ghost use Rattle.register.specs.Clear.{clear_of};
ghost use Rattle.register.specs.Find.{find_of};
ghost use Rattle.register.specs.Store.{store_of};
ghost use Rattle.register.specs.Remove.{remove_of};
ghost use Rattle.register.specs.Change.{change_of};
ghost use Rattle.register.specs.Check.{check_of};
ghost use Rattle.register.specs.Census.{census_of};

use register::{Answer, Census, Head};

// The hash of a slice of any length.
#[unsafe(no_mangle)]
pub extern "C" fn register_hash_bytes(s: &[u8]) -> u64
    ensures { result ≡ fnv s.now }
{
    hash::bytes(s)
}

// The hash of a salt and then an identifier.
#[unsafe(no_mangle)]
pub extern "C" fn register_hash_key(salt: u64, id: u64) -> u64
    ensures { result ≡ key_hash salt id }
{
    hash::key(salt, id)
}

// Both slices zeroed under new settings. The old head is only handed back when clear refuses.
#[unsafe(no_mangle)]
pub extern "C" fn register_clear(
    old: Head,
    slots: usize,
    rule: u8,
    salt: u64,
    words: &mut [u64],
    counts: &mut [u16],
) -> Answer
    ensures { out result words.new counts.new ≡ clear_of old slots rule salt words.old counts.old }
{
    register::clear(old, slots, rule, salt, words, counts)
}

// The slot, entry and probes of a live identifier.
#[unsafe(no_mangle)]
pub extern "C" fn register_find(
    head: Head,
    words: &[u64],
    counts: &[u16],
    identifier: u64,
) -> Answer
    ensures { result ≡ find_of head words.now counts.now identifier }
{
    register::find(head, words, counts, identifier)
}

// A new record, unless the identifier is live or the register full.
#[unsafe(no_mangle)]
pub extern "C" fn register_store(
    head: Head,
    words: &mut [u64],
    counts: &mut [u16],
    identifier: u64,
    entry: u64,
) -> Answer
    ensures { out result words.new counts.new ≡ store_of head words.old counts.old identifier entry }
{
    register::store(head, words, counts, identifier, entry)
}

// A live record taken out; those behind it move back.
#[unsafe(no_mangle)]
pub extern "C" fn register_remove(
    head: Head,
    words: &mut [u64],
    counts: &mut [u16],
    identifier: u64,
) -> Answer
    ensures { out result words.new counts.new ≡ remove_of head words.old counts.old identifier }
{
    register::remove(head, words, counts, identifier)
}

// A new entry for a live identifier.
#[unsafe(no_mangle)]
pub extern "C" fn register_change(
    head: Head,
    words: &mut [u64],
    counts: &[u16],
    identifier: u64,
    entry: u64,
) -> Answer
    ensures { out result words.new counts.now ≡ change_of head words.old counts.now identifier entry }
{
    register::change(head, words, counts, identifier, entry)
}

// Is the table the proper arrangement of as many records as the head says?
#[unsafe(no_mangle)]
pub extern "C" fn register_check(head: Head, words: &[u64], counts: &[u16]) -> Answer
    ensures { result ≡ check_of head words.now counts.now }
{
    register::check(head, words, counts)
}

// The greatest count, the stored total and the absent total, of any table.
#[unsafe(no_mangle)]
pub extern "C" fn register_census(head: Head, words: &[u64], counts: &[u16]) -> Census
    ensures { result ≡ census_of head words.now counts.now }
{
    register::census(head, words, counts)
}

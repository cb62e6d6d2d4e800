// Homes by rule: one remainder a call. A usize has no `From` to u64, and a home below 32,768 fits it, hence each `as`.
// The head comes by reference: copied for each slot, it made check a fifth slower.
ghost use Rattle.std.specs.Prelude.{◌≡◌, ◌%◌, ◌≤◌, ◌<◌};
ghost use Rattle.register.specs.Homes.{home_number, home_of};

use crate::head::Head;

#[tactic(auto, unfolding(crate::specs::Homes::home_number))]
fn number(head: &Head, x: u64) -> u64
    ensures { result ≡ home_number head.now x }
{
    if head.rule == Head::REMAINDER {
        x
    } else {
        hash::key(head.salt, x)
    }
}

// The remainder by m. A power of two is a literal here, so that it compiles to a mask and not to a division.
fn remainder(x: u64, m: usize) -> u64
    requires { 2 ≤ m }
    ensures { result ≡ x % m }
{
    match m {
        2 => x % 2,
        4 => x % 4,
        8 => x % 8,
        16 => x % 16,
        32 => x % 32,
        64 => x % 64,
        128 => x % 128,
        256 => x % 256,
        512 => x % 512,
        1024 => x % 1024,
        2048 => x % 2048,
        4096 => x % 4096,
        8192 => x % 8192,
        16384 => x % 16384,
        32768 => x % 32768,
        _ => x % (m as u64),
    }
}

#[tactic(auto, unfolding(crate::specs::Homes::home_of))]
pub fn home(head: &Head, x: u64) -> usize
    requires { (2 ≤ head.now.slots) × (head.now.slots ≤ 32768) }
    ensures { (result ≡ home_of head.now x) × (result < head.now.slots) }
{
    remainder(number(head, x), head.slots) as usize
}

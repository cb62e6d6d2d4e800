// 64-bit FNV-1a over bytes, and over a salt and an identifier.
#![tactic(auto)]

mod mix;
mod multiply;

ghost use Rattle.std.specs.Prelude.{◌≡◌, fold};
ghost use Rattle.hash.specs.Fnv.{fnv, fnv_step, key_hash};

const START: u64 = 0xcbf2_9ce4_8422_2325;

const PRIME: u64 = 0x100_0000_01b3;

// One byte: first xored in, then the whole is multiplied.
fn step(h: u64, b: u8) -> u64
    ensures { result ≡ fnv_step h b }
{
    multiply::wrapping(mix::xor_byte(h, b), PRIME)
}

// The hash of a slice of any length.
pub fn bytes(s: &[u8]) -> u64
    ensures { result ≡ fnv s.now }
{
    s.iter().fold(START, |h, &b| step(h, b))
}

// The hash of a salt and then an identifier, each least significant byte first.
pub fn key(salt: u64, id: u64) -> u64
    ensures { result ≡ key_hash salt id }
{
    bytes([salt.to_le_bytes(), id.to_le_bytes()].as_flattened())
}

// The xor of a byte into the 64-bit state.
ghost use Rattle.std.specs.Prelude.{◌≡◌};
ghost use Rattle.hash.specs.Fnv.{xor_byte_of};

// Only the lowest eight bits change: the rest is the state less its remainder by 256.
pub fn xor_byte(h: u64, b: u8) -> u64
    ensures { result ≡ xor_byte_of h b }
{
    h ^ u64::from(b)
}

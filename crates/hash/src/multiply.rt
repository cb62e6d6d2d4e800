// The product of two 64-bit numbers modulo 2^64, built from wrapping adds, as document 01 asks: std's `wrapping_mul` is another form.
ghost use Rattle.std.specs.Prelude.{◌≡◌, ◌*◌, ◌%◌, ◌^◌};

const HALF: u64 = 0x1_0000_0000;

// Each number is cut into halves; a cross product is shifted before it is added, so that the compiler makes one multiply.
// The method `wrapping_add` misses the bar of speed: with it the compiler makes two multiplies a byte, 1.7 times plain Rust (bench/hash).
pub fn wrapping(a: u64, b: u64) -> u64
    ensures { result ≡ (a * b) % 2 ^ 64 }
{
    let a0 = a % HALF;
    let a1 = a / HALF;
    let b0 = b % HALF;
    let b1 = b / HALF;
    let low = a0 * b0;
    let left = (a1 * b0) << 32;
    let right = (a0 * b1) << 32;
    std::num::wrapping_add_u64(std::num::wrapping_add_u64(low, left), right)
}

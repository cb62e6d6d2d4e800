// One digit, written and read.
ghost use Rattle.std.specs.Prelude.{◌≡◌, ◌<◌};
ghost use Rattle.digits.specs.Digits.{digit_of, worth_of};

// `as` and no `try_from`, whose `Result` would be `Ok` in each arm; std's `from_digit` gives an `Option<char>`, to be a byte again.
#[tactic(auto, unfolding(crate::specs::Digits::digit_of))]
pub fn digit(n: u64) -> u8
    requires { n < 16 }
    ensures { result ≡ digit_of n }
{
    if n < 10 {
        b'0' + n as u8
    } else {
        b'a' + (n - 10) as u8
    }
}

// What a byte is worth if it is a digit: its low four bits, and nine more for a letter. None where the digit of that is another byte.
// std's `to_digit` takes capital letters too.
#[tactic(auto, using(crate::proofs::Single::worth_tested))]
pub fn worth(byte: u8) -> Option<u64>
    ensures { result ≡ worth_of byte }
{
    let b = u64::from(byte);
    let v = b % 16 + 9 * (b / 64);
    (v < 16 && digit(v) == byte).then_some(v)
}

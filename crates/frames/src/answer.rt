// An answer to its line.
ghost use Rattle.std.specs.Prelude.{◌≡◌};
ghost use Rattle.frames.specs.Printing.{print_of};

use register::Answer;

// The answer's line at the start of a lent buffer, if the buffer has room for it. A usize has no `From` to u64, hence each `as`.
// It is no `Display`: what a clause knows of printed text is said of no place in a buffer.
#[tactic(auto, using(crate::proofs::Buffers::six_fields), unfolding(crate::specs::Printing::print_of))]
pub fn print(answer: Answer, buffer: &mut [u8])
    ensures { buffer.new ≡ print_of answer buffer.old }
{
    if buffer.len() < 40 {
        return;
    }
    digits::write(buffer, 0, 2, u64::from(answer.number), b' ');
    digits::write(buffer, 3, 4, answer.slot as u64, b' ');
    digits::write(buffer, 8, 16, answer.entry, b' ');
    digits::write(buffer, 25, 4, answer.probes as u64, b' ');
    digits::write(buffer, 30, 4, answer.moved as u64, b' ');
    digits::write(buffer, 35, 4, answer.head.live as u64, b'\n');
}

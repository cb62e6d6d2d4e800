// One line served: the call that its frame asks for, on the register's parts of the room, and the answer's line.
// The head, the words and the counts go side by side, as `register::store` and its like, which C calls too, take them: document 01, "The register".
ghost use Rattle.std.specs.Prelude.{◌≡◌};
ghost use Rattle.register.specs.Answers.{out};
ghost use Rattle.frames.specs.Serving.{call_of, room_of, served, serve_of};

use crate::answer::print;
use crate::frame::Frame;
use crate::line::parse;
use register::{Answer, Head, Refusal};

// A frame's call on the parts that are the register's own. The kinds are closed, so a match says them all.
fn call(head: Head, words: &mut [u64], counts: &mut [u16], frame: Frame) -> Answer
    ensures { out result words.new counts.new ≡ call_of head words.old counts.old frame }
{
    match frame {
        Frame::Clear { slots, rule, salt } => {
            register::clear(head, slots, rule, salt, words, counts)
        }
        Frame::Store { identifier, entry } => {
            register::store(head, words, counts, identifier, entry)
        }
        Frame::Find { identifier } => register::find(head, words, counts, identifier),
        Frame::Remove { identifier } => register::remove(head, words, counts, identifier),
        Frame::Change { identifier, entry } => {
            register::change(head, words, counts, identifier, entry)
        }
        Frame::Check => register::check(head, words, counts),
    }
}

// The same in a room that may be larger than the register, or too small for it.
#[tactic(auto, unfolding(crate::specs::Serving::room_of), using(std::proofs::lemmas::List::take_min, std::proofs::lemmas::List::drop_min))]
fn call_in_room(head: Head, words: &mut [u64], counts: &mut [u16], frame: Frame) -> Answer
    ensures { out result words.new counts.new ≡ room_of head words.old counts.old frame }
{
    let slots = match frame {
        Frame::Clear { slots, .. } => slots,
        _ => head.slots,
    };
    let w = slots.saturating_mul(2).min(words.len());
    let c = slots.min(counts.len());
    call(head, &mut words[..w], &mut counts[..c], frame)
}

// The head afterwards; the buffer begins with the answer's line.
#[tactic(auto, unfolding(crate::specs::Serving::serve_of))]
pub fn serve(
    head: Head,
    words: &mut [u64],
    counts: &mut [u16],
    line: &[u8],
    buffer: &mut [u8],
) -> Head
    ensures { served result words.new counts.new buffer.new ≡ serve_of head words.old counts.old line.now buffer.old }
{
    let Some(frame) = parse(line) else {
        print(Refusal::BadFrame.answer(head), buffer);
        return head;
    };
    let answer = call_in_room(head, words, counts, frame);
    print(answer, buffer);
    answer.head
}

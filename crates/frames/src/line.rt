// A line to its frame: fields of fixed width, one blank between them, nothing before or after.
ghost use Rattle.std.specs.Prelude.{◌≡◌};
ghost use Rattle.frames.specs.Parsing.{single_of, pair_of, clear_frame_of, parse_of};

use crate::frame::Frame;

// The identifier of a line that has one field after its code.
#[tactic(auto, unfolding(crate::specs::Parsing::single_of))]
fn single(line: &[u8]) -> Option<u64>
    ensures { result ≡ single_of line.now }
{
    if line.len() != 19 || line[2] != b' ' {
        return None;
    }
    digits::read(line, 3, 16)
}

// The identifier and the entry of a line that has both after its code.
#[tactic(auto, unfolding(crate::specs::Parsing::pair_of))]
fn pair(line: &[u8]) -> Option<(u64, u64)>
    ensures { result ≡ pair_of line.now }
{
    if line.len() != 36 || line[2] != b' ' || line[19] != b' ' {
        return None;
    }
    Some((digits::read(line, 3, 16)?, digits::read(line, 20, 16)?))
}

// A clear's frame. Four digits fit a usize and two a u8: the `Result` of `try_from` would always be `Ok`, hence each `as`.
#[tactic(auto, unfolding(crate::specs::Parsing::clear_frame_of), using(digits::proofs::Back::field_below))]
fn clear_frame(line: &[u8]) -> Option<Frame>
    ensures { result ≡ clear_frame_of line.now }
{
    if line.len() != 27 || line[2] != b' ' || line[7] != b' ' || line[10] != b' ' {
        return None;
    }
    Some(Frame::Clear {
        slots: digits::read(line, 3, 4)? as usize,
        rule: digits::read(line, 8, 2)? as u8,
        salt: digits::read(line, 11, 16)?,
    })
}

// The first two digits choose the call, by a match, as document 01 asks; every other code is a bad frame.
#[tactic(auto, unfolding(crate::specs::Parsing::parse_of))]
pub fn parse(line: &[u8]) -> Option<Frame>
    ensures { result ≡ parse_of line.now }
{
    match digits::read(line, 0, 2)? {
        0 => clear_frame(line),
        1 => pair(line).map(|(identifier, entry)| Frame::Store { identifier, entry }),
        2 => single(line).map(|identifier| Frame::Find { identifier }),
        3 => single(line).map(|identifier| Frame::Remove { identifier }),
        4 => pair(line).map(|(identifier, entry)| Frame::Change { identifier, entry }),
        5 => (line.len() == 2).then_some(Frame::Check),
        _ => None,
    }
}

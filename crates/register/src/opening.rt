// The refusals that every call shares, before it looks at a slot.
ghost use Rattle.std.specs.Prelude.{◌≡◌, length, IfOk};
ghost use Rattle.register.specs.Answers.{open_number};
ghost use Rattle.register.specs.Private.{number_in};

use crate::head::Head;
use crate::refusal::Refusal;
use crate::table::Opened;

// Is the head good, and are the words 2M and the counts M?
#[tactic(auto, unfolding(crate::specs::Answers::open_number, crate::specs::Answers::length_number, crate::specs::Head::good_head))]
pub fn opening(head: Head, words: usize, counts: usize) -> Result<(), Refusal>
    ensures { number_in result ≡ open_number head words counts }
{
    if !head.is_good() {
        return Err(Refusal::BadHead);
    }
    if words != 2 * head.slots || counts != head.slots {
        return Err(Refusal::BadLength);
    }
    Ok(())
}

impl<'a> Opened<'a> {
    // The register to be read, where the opening does not refuse.
    // `OpenedMut` has none (tried, not proved): that a refusal leaves both slices needs an `ensures*`, and the check proves one only of a body that hands on one field or a call's result.
    pub fn open(head: Head, words: &'a [u64], counts: &'a [u16]) -> Result<Self, Refusal>
        ensures number { number_in result ≡ open_number head (length words.now) (length counts.now) }
        ensures same { IfOk result (λ o. (o.head ≡ head) × (o.words.now ≡ words.now) × (o.counts.now ≡ counts.now)) }
    {
        opening(head, words.len(), counts.len())?;
        Ok(Opened {
            head,
            words,
            counts,
        })
    }
}

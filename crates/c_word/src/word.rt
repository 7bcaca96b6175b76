// The word that every call answers: bits 56 to 63 the kind, bits 48 to 55 a refusal's number, bits 0 to 47 a length or a place.
ghost use Rattle.std.specs.Prelude.{◌≡◌};
ghost use Rattle.spec_calls.specs.Word.{Reply, word_of};

const KIND: u64 = 0x100_0000_0000_0000;

const NUMBER: u64 = 0x1_0000_0000_0000;

// Answered, with the length of what was written.
#[tactic(auto, unfolding(spec_calls::specs::Word::word_of))]
pub fn answered(length: usize) -> u64
    ensures { result ≡ word_of (Reply.answered length) }
{
    KIND + (length as u64) % NUMBER
}

// No more, none, no, or covered.
#[tactic(auto, unfolding(spec_calls::specs::Word::word_of))]
pub fn nothing() -> u64
    ensures { result ≡ word_of Reply.nothing }
{
    2 * KIND
}

// Refused by a number, at a place.
#[tactic(auto, unfolding(spec_calls::specs::Word::word_of))]
pub fn refused(number: u8, place: usize) -> u64
    ensures { result ≡ word_of (Reply.refused number place) }
{
    3 * KIND + (number as u64) * NUMBER + (place as u64) % NUMBER
}

// The second of two files refused by a number, at a place.
#[tactic(auto, unfolding(spec_calls::specs::Word::word_of))]
pub fn second_refused(number: u8, place: usize) -> u64
    ensures { result ≡ word_of (Reply.second_refused number place) }
{
    4 * KIND + (number as u64) * NUMBER + (place as u64) % NUMBER
}

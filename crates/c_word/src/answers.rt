// The words of what most calls answer.
ghost use Rattle.std.specs.Prelude.{◌≡◌};
ghost use Rattle.spec_calls.specs.Word.{word_of};
ghost use Rattle.spec_calls.specs.ByRows.{rows_reply};
ghost use Rattle.c_word.specs.Found.{reply_of};

use crate::word::{answered, nothing, refused};
use spec_file::Refusal;

// Of a number, such as a length, a number of rows or the size of a class, or a refusal.
#[tactic(auto, unfolding(spec_calls::specs::ByRows::rows_reply))]
pub fn number_word(answer: Result<usize, Refusal>) -> u64
    ensures { result ≡ word_of (rows_reply answer) }
{
    match answer {
        Ok(n) => answered(n),
        Err(r) => refused(r.number, r.place),
    }
}

// Of the length of a schedule that stands in front of the output, or none, or a refusal.
#[tactic(auto, unfolding(crate::specs::Found::reply_of))]
pub fn found_word(answer: Result<Option<usize>, Refusal>) -> u64
    ensures { result ≡ word_of (reply_of answer) }
{
    match answer {
        Ok(Some(n)) => answered(n),
        Ok(None) => nothing(),
        Err(r) => refused(r.number, r.place),
    }
}

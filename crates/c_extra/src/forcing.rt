// Who can force the failure of an assertion.
ghost use Rattle.std.specs.Prelude.{◌≡◌};
ghost use Rattle.spec_force.specs.Forced.{Answer, Forced};
ghost use Rattle.spec_calls.specs.Word.{word_of};
ghost use Rattle.spec_calls.specs.Forced.{force_reply};
ghost use Rattle.spec_calls.specs.Scratch.{force_scratch};
ghost use Rattle.c_extra.specs.Forcing.{forcing_reply};

use c_word::{answered, nothing, refused};
use file_lines::wide;
use force::Winner;
use spec_file::Refusal;

// The word of an answer.
#[tactic(auto, unfolding(crate::specs::Forcing::forcing_reply))]
fn force_word(answer: Result<Winner, Refusal>) -> u64
    ensures { result ≡ word_of (forcing_reply answer) }
{
    match answer {
        Ok(Winner::Hostile(n)) => answered(wide(n)),
        Ok(Winner::Friendly) => nothing(),
        Err(r) => refused(r.number, r.place),
    }
}

// Bit t of the set says that thread t is the hostile side's. Kind 1: the hostile side can force the failure; with 0 where it has no step
// before the first one, else its least first step that keeps the win, plus 1. Kind 2: the friendly side can force that nothing fails. Kind
// 3 with number and place. The file is only read.
#[unsafe(no_mangle)]
pub extern "C" fn tarczolin_force(file: &[u8], set: u8) -> u64
    ensures { (a : Answer) × Forced file.now set a × (result ≡ word_of (force_reply a)) }
{
    force_word(force::force(file, set))
}

// The same answer with a scratch, however long it is and whatever it holds, in which it remembers who wins where. Kinds 1 and 2 leave zeros in
// the scratch, kind 3 leaves it as it was.
#[unsafe(no_mangle)]
pub extern "C" fn tarczolin_force_with(file: &[u8], set: u8, scratch: &mut [u64]) -> u64
    ensures { (a : Answer) × Forced file.now set a × (result ≡ word_of (force_reply a))
        × (scratch.new ≡ force_scratch a scratch.old) }
{
    force_word(force::force_with(file, set, scratch))
}

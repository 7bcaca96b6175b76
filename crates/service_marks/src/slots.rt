// Where a name stands among eight marks, and where it would go.
ghost use Rattle.std.specs.Prelude.{◌≡◌, ◌<◌};
ghost use Rattle.spec_file.specs.WellFormed.{WellFormed};
ghost use Rattle.file_decoder.specs.Compiled.{program_of};
ghost use Rattle.spec_schedules.specs.Lists.{range, any, find};
ghost use Rattle.spec_service.specs.Marks.{bears, slot_of, is_free, slot_for};
ghost use Rattle.service_marks.specs.Numbers.{slot_number};

use crate::bearing::{bears, has_place};
use file_decoder::Compiled;
use spec_service::Mark;

// The slot of a name: the first that bears it.
pub fn slot_of(p: &Compiled, name: &[u8], marks: &[Mark; 8]) -> Option<usize>
    requires { WellFormed (program_of p.now) }
    ensures { result ≡ slot_number (slot_of (program_of p.now) name.now marks.now) }
{
    marks.iter().position(|m| bears(p, name, m))
}

// Whether one of these marks bears this name.
fn is_borne(p: &Compiled, name: &[u8], marks: &[Mark]) -> bool
    requires { WellFormed (program_of p.now) }
    ensures { result ≡ any (bears (program_of p.now) name.now) marks.now }
{
    marks.iter().any(|m| bears(p, name, m))
}

// Whether the mark at i counts as free: by itself, or since an earlier one has its name.
#[tactic(auto, using(crate::proofs::Named::placed_short))]
fn is_free(p: &Compiled, marks: &[Mark; 8], i: usize) -> bool
    requires { WellFormed (program_of p.now) × (i < 8) }
    ensures { result ≡ is_free (program_of p.now) marks.now i }
{
    let m = &marks[i];
    !has_place(p, m) || is_borne(p, &m.name[..usize::from(m.length)], &marks[..i])
}

// The first free slot.
fn first_free(p: &Compiled, marks: &[Mark; 8]) -> Option<usize>
    requires { WellFormed (program_of p.now) }
    ensures { result ≡ slot_number (find (is_free (program_of p.now) marks.now) (range 0 8)) }
{
    (0..8).find(|i| is_free(p, marks, *i))
}

// The slot that a mark of this name takes: where the name stands, else the first free one.
pub fn slot_for(p: &Compiled, name: &[u8], marks: &[Mark; 8]) -> Option<usize>
    requires { WellFormed (program_of p.now) }
    ensures { result ≡ slot_number (slot_for (program_of p.now) name.now marks.now) }
{
    slot_of(p, name, marks).or_else(|| first_free(p, marks))
}

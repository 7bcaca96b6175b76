// Whether a mark counts by itself, and whether it bears a name.
ghost use Rattle.std.specs.Prelude.{◌≡◌};
ghost use Rattle.spec_file.specs.WellFormed.{WellFormed};
ghost use Rattle.file_decoder.specs.Compiled.{program_of};
ghost use Rattle.spec_service.specs.Marks.{is_some, mark_place, bears};

use crate::before::name_fits;
use file_decoder::Compiled;
use service_record::is_place;
use spec_service::Mark;

// Whether a mark has a place: its name has 1 to 8 bytes, and it stands at the beginning or behind a full schedule.
pub(crate) fn has_place(p: &Compiled, m: &Mark) -> bool
    requires { WellFormed (program_of p.now) }
    ensures { result ≡ is_some (mark_place (program_of p.now) m.now) }
{
    name_fits(usize::from(m.length)) && m.place != 3 && is_place(p, m.place, m.steps, &m.schedule)
}

// Whether a mark, by itself, is one of this name.
#[tactic(auto, using(crate::proofs::Named::placed_short))]
pub(crate) fn bears(p: &Compiled, name: &[u8], m: &Mark) -> bool
    requires { WellFormed (program_of p.now) }
    ensures { result ≡ bears (program_of p.now) name.now m.now }
{
    has_place(p, m) && &m.name[..usize::from(m.length)] == name
}

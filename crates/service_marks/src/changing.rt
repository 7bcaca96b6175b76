// The records that set, return and forget leave.
ghost use Rattle.std.specs.Prelude.{◌≡◌, cond, ◌≤◌, ◌<◌, length, get_or, set};
ghost use Rattle.spec_file.specs.WellFormed.{WellFormed};
ghost use Rattle.file_decoder.specs.Compiled.{program_of};
ghost use Rattle.spec_service.specs.Record.{no_mark, with_marks, returned};
ghost use Rattle.spec_service.specs.Marks.{is_some, bears, last_handed, new_mark, emptied, mark_forgotten};

use crate::bearing::bears;
use file_decoder::Compiled;
use file_rows::put_front;
use service_record::{is_place, no_mark};
use spec_service::{Caller, Mark};

// A mark as it is, or a free one where it bears this name.
fn without(p: &Compiled, name: &[u8], m: Mark) -> Mark
    requires { WellFormed (program_of p.now) }
    ensures { result ≡ cond (bears (program_of p.now) name.now m) no_mark m }
{
    if bears(p, name, &m) {
        return no_mark();
    }
    m
}

// The marks without those of this name.
fn emptied(p: &Compiled, name: &[u8], marks: [Mark; 8]) -> [Mark; 8]
    requires { WellFormed (program_of p.now) }
    ensures { result ≡ emptied (program_of p.now) name.now marks }
{
    marks.map(|m| without(p, name, m))
}

// Whether a full schedule was handed to it since it opened.
fn was_handed(p: &Compiled, c: &Caller) -> bool
    requires { WellFormed (program_of p.now) }
    ensures { result ≡ is_some (last_handed (program_of p.now) c.now) }
{
    c.handed == 1 && is_place(p, 2, c.size, &c.newest)
}

// A new mark of this name: behind the last schedule handed, or at the beginning if there is none.
fn new_mark(p: &Compiled, name: &[u8], c: &Caller) -> Mark
    requires { WellFormed (program_of p.now) × (length name.now ≤ 8) }
    ensures { result ≡ new_mark name.now c.now (last_handed (program_of p.now) c.now) }
{
    let mut bytes = [0u8; 8];
    put_front(&mut bytes, name, name.len());
    let length = name.len() as u8;
    if was_handed(p, c) {
        let newest = c.newest;
        return Mark {
            name: bytes,
            length,
            place: 2,
            steps: c.size,
            schedule: newest,
        };
    }
    Mark {
        name: bytes,
        length,
        place: 1,
        ..no_mark()
    }
}

// The record with a mark set at i under this name, and no other of this name left.
pub fn marked(p: &Compiled, name: &[u8], c: &Caller, i: usize) -> Caller
    requires { WellFormed (program_of p.now) × (length name.now ≤ 8) × (i < 8) }
    ensures { result ≡ with_marks c.now (set (emptied (program_of p.now) name.now c.now.marks) i
        (new_mark name.now c.now (last_handed (program_of p.now) c.now))) }
{
    let mut marks = emptied(p, name, c.marks);
    marks[i] = new_mark(p, name, c);
    Caller { marks, ..*c }
}

// The record with the name forgotten.
pub fn forgotten(p: &Compiled, name: &[u8], c: &Caller) -> Caller
    requires { WellFormed (program_of p.now) }
    ensures { result ≡ mark_forgotten (program_of p.now) name.now c.now }
{
    let marks = emptied(p, name, c.marks);
    Caller { marks, ..*c }
}

// The record with the place of mark i; it asks where it asked, and all else stays.
pub fn returned_to(c: &Caller, i: usize) -> Caller
    requires { i < 8 }
    ensures { result ≡ returned c.now (get_or c.now.marks i no_mark) }
{
    let m = c.marks[i];
    let schedule = m.schedule;
    Caller {
        place: m.place,
        steps: m.steps,
        schedule,
        ..*c
    }
}

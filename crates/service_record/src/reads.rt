// What a record reads as.
ghost use Rattle.std.specs.Prelude.{◌≡◌};
ghost use Rattle.spec_file.specs.WellFormed.{WellFormed};
ghost use Rattle.file_decoder.specs.Compiled.{program_of};
ghost use Rattle.spec_sc.specs.Replay.{replay};
ghost use Rattle.spec_service.specs.Seat.{is_open, asks};
ghost use Rattle.spec_service.specs.Record.{place_of, reading};
ghost use Rattle.service_record.specs.Tested.{is_whole, is_place};

use file_decoder::Compiled;
use machine_replay::replayed;
use spec_file::STEPS;
use spec_service::Caller;

// Whether a schedule is full.
fn is_full(p: &Compiled, schedule: &[u8]) -> bool
    requires { WellFormed (program_of p.now) }
    ensures { result ≡ is_whole (replay (program_of p.now) schedule.now) }
{
    let run = replayed(&p, schedule);
    run.end.is_ok()
}

// Whether it is a place in this program's list: the beginning, behind a full schedule, or the end.
pub fn is_place(p: &Compiled, place: u8, steps: u8, schedule: &[u8; STEPS]) -> bool
    requires { WellFormed (program_of p.now) }
    ensures { result ≡ is_place (place_of (program_of p.now) place steps schedule.now) }
{
    match place {
        1 | 3 => true,
        2 => steps <= 24 && is_full(p, &schedule[..usize::from(steps)]),
        _ => false,
    }
}

// Whether somebody is there. A record whose program would be refused, or whose place is none, is closed.
pub fn is_open(c: &Caller) -> bool
    ensures { result ≡ is_open (reading c.now) }
{
    if 4096 < c.length {
        return false;
    }
    match file_decoder::decode(&c.file[..c.length]) {
        Ok(p) => is_place(&p, c.place, c.steps, &c.schedule),
        Err(_) => false,
    }
}

// Whether somebody is there and asks.
pub fn asks(c: &Caller) -> bool
    ensures { result ≡ asks (reading c.now) }
{
    c.asking == 1 && is_open(c)
}

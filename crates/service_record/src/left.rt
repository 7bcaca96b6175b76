// The records that calls leave: fresh, opened, asking, served.
ghost use Rattle.std.specs.Prelude.{◌≡◌, ◌≤◌, length, replicate};
ghost use Rattle.std.proofs.Math.Option.{Option};
ghost use Rattle.spec_schedules.specs.Order.{Schedule};
ghost use Rattle.spec_service.specs.Record.{no_mark, fresh, opened, asked, served};
ghost use Rattle.service_record.specs.Next.{next_of};

use crate::next::Next;
use file_rows::put_front;
use spec_file::STEPS;
use spec_service::{Caller, Mark};

// A mark that is free: nothing in it.
pub fn no_mark() -> Mark
    ensures { result ≡ no_mark }
{
    Mark {
        name: [0u8; 8],
        length: 0,
        place: 0,
        steps: 0,
        schedule: [0u8; STEPS],
    }
}

// A fresh record, as closing leaves it: eight free marks, and nothing else in it.
pub fn fresh_record() -> Caller
    ensures { result ≡ fresh }
{
    Caller {
        file: [0u8; 4096],
        length: 0,
        count: 0,
        place: 0,
        asking: 0,
        steps: 0,
        schedule: [0u8; STEPS],
        handed: 0,
        size: 0,
        newest: [0u8; STEPS],
        marks: [no_mark(); 8],
        padding: [0u8; 3],
    }
}

// Opened with this file, before the first schedule.
pub fn opened_with(file: &[u8]) -> Caller
    requires { length file.now ≤ 4096 }
    ensures { result ≡ opened file.now }
{
    let mut bytes = [0u8; 4096];
    put_front(&mut bytes, file, file.len());
    Caller {
        file: bytes,
        length: file.len(),
        place: 1,
        ..fresh_record()
    }
}

// The record, asking.
pub fn asked(c: &Caller) -> Caller
    ensures { result ≡ asked c.now }
{
    Caller { asking: 1, ..*c }
}

// The record behind what it was given: a schedule, which counts, or no more.
pub fn served(c: &Caller, next: Option<Next>) -> Caller
    ensures { (o : Option Schedule) → next ≡ next_of o → result ≡ served c.now o }
{
    let Some(next) = next else {
        return Caller {
            place: 3,
            asking: 0,
            steps: 0,
            schedule: [0u8; STEPS],
            ..*c
        };
    };
    let schedule = next.schedule;
    Caller {
        place: 2,
        asking: 0,
        steps: next.steps,
        schedule,
        handed: 1,
        size: next.steps,
        newest: schedule,
        count: c.count.wrapping_add(1),
        ..*c
    }
}

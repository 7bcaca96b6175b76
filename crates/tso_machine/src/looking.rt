// What a thread finds at a location: its newest pending store there, else what memory holds.
ghost use Rattle.std.specs.Prelude.{◌≡◌, ◌≤◌, ◌-◌};
ghost use Rattle.spec_tso.specs.Queue.{newest};
ghost use Rattle.tso_machine.specs.Slots.{queue_at, store_of};
ghost use Rattle.tso_machine.specs.Looked.{look_of};

use crate::state::Pending;
use file_lines::wide;
use machine::LastWrite;

// A value, the write that it comes from, and whether that is a pending store of the thread's own.
#[derive(Clone, Copy)]
pub struct Sight {
    pub value: u32,
    pub source: LastWrite,
    pub own: bool,
}

// The newest store to l in the slots from `head` up to `tail`, if there is one.
fn newest(slots: [Pending; 16], head: usize, tail: usize, l: u8) -> Option<Pending>
    requires { tail ≤ 16 }
    ensures { newest (queue_at slots head (tail - head)) l ≡ store_of result }
{
    for k in (head..tail).rev() {
        if slots[k].location == l {
            return Some(slots[k]);
        }
    }
    None
}

// What thread t, with this queue, finds at l, where memory holds v, written by w.
pub(crate) fn look(
    slots: [Pending; 16],
    head: u8,
    tail: u8,
    v: u32,
    w: LastWrite,
    t: u8,
    l: u8,
) -> Sight
    requires { tail ≤ 16 }
    ensures { result ≡ look_of t (newest (queue_at slots head (tail - head)) l) v w }
{
    match newest(slots, wide(head), wide(tail), l) {
        Some(s) => Sight {
            value: s.value,
            source: LastWrite {
                thread: t,
                number: s.number,
            },
            own: true,
        },
        None => Sight {
            value: v,
            source: w,
            own: false,
        },
    }
}

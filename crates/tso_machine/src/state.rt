// The machine's state under total store order: what sequential consistency's machine holds, and each thread's queue of pending stores.
use machine::LastWrite;
use machine_access::ThreadState;

// A pending store: its value, the number of the access that made it, and its location.
#[derive(Clone, Copy)]
pub struct Pending {
    pub value: u32,
    pub number: u8,
    pub location: u8,
}

// Thread t's queue, oldest first, stands in the slots from heads[t] up to tails[t]. Each thread has as many slots of its own as it has
// accesses, in the order of threads: a store is put at the tail, a move takes from the head, and none goes elsewhere.
#[derive(Clone, Copy)]
pub struct QueuedMachine {
    pub threads: [ThreadState; 6],
    pub memory: [u32; 8],
    pub last: [LastWrite; 8],
    pub heads: [u8; 6],
    pub tails: [u8; 6],
    pub slots: [Pending; 16],
}

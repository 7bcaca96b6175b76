// The machine's state: where each thread stands, memory, and the last write of each location.
use machine_access::ThreadState;

// A location's last write: its thread and its access's number; 255 and 255 for the initial one.
#[derive(Clone, Copy)]
pub struct LastWrite {
    pub thread: u8,
    pub number: u8,
}

#[derive(Clone, Copy)]
pub struct Machine {
    pub threads: [ThreadState; 6],
    pub memory: [u32; 8],
    pub last: [LastWrite; 8],
}

// A prefix of a run: the machine behind it, its steps, and what the rules carry from step to step.
use machine::LastWrite;
use machine_access::ThreadState;
use tso_machine::Pending;
use tso_order::Sets;

// The first six are the machine's. The steps are the first so many of the schedule. Of each thread there is a word for its accesses.
#[derive(Clone, Copy)]
pub struct Place {
    pub threads: [ThreadState; 6],
    pub memory: [u32; 8],
    pub last: [LastWrite; 8],
    pub heads: [u8; 6],
    pub tails: [u8; 6],
    pub slots: [Pending; 16],
    pub words: [u64; 6],
    pub schedule: [u8; 32],
    pub steps: usize,
    pub sets: Sets,
}

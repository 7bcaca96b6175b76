// A prefix of a run: the machine behind it, its steps, and what the rules carry from step to step.
use machine_access::ThreadState;
use spec_file::STEPS;

// The threads and memory are the machine's. The steps are the first so many of the schedule. Of late threads, and of those that have not
// ended, there is a bit for each; of each location the number of the step that wrote it last, from 1, or 0; and of each thread a word for
// its reads.
#[derive(Clone, Copy)]
pub struct Place {
    pub threads: [ThreadState; 6],
    pub memory: [u32; 8],
    pub words: [u64; 6],
    pub schedule: [u8; STEPS],
    pub stamps: [u8; 8],
    pub steps: usize,
    pub late: u8,
    pub live: u8,
}

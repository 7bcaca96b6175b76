// Where a thread stands.

// A thread: its registers, the number of its next instruction (the code's length where none is left), how many accesses it did, and whether
// an assertion failed.
#[derive(Clone, Copy, Default)]
pub struct ThreadState {
    pub registers: [u32; 4],
    pub at: usize,
    pub done: u8,
    pub failed: bool,
}

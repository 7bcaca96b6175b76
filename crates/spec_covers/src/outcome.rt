// The outcome of a full schedule: the eight final values, and whether an assertion failed.

#[derive(Clone, Copy)]
pub struct Outcome {
    pub memory: [u32; 8],
    pub fails: bool,
}

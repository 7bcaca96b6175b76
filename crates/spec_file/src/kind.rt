// The kinds of frame: how long a kind's frames are and where its fields stand.

// A row of the table of kinds. Positions are counted from the frame's first byte; 0: the kind has no such field.
#[derive(Clone, Copy)]
pub struct Kind {
    pub byte: usize,
    pub least: usize,
    pub most: usize,
    pub register: usize,
    pub location: usize,
    pub first: usize,
    pub second: usize,
    pub skip: usize,
}

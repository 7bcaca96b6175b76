// Why something is refused.

// The number that the documents give the reason, and the place: a line, a step or a caller, as the reason says; 0 where it has none.
#[derive(Clone, Copy)]
pub struct Refusal {
    pub number: u8,
    pub place: usize,
}

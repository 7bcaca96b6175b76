// What a call of four callers answers that is not refused.

#[derive(Clone, Copy)]
pub enum Reply {
    // Opened, asking, closed, or a mark set, returned to or forgotten.
    Done,
    // A schedule for the caller of the first number, of as many steps as the second, which stands in front of the output.
    Given(usize, usize),
    // No more for this caller.
    Ended(usize),
    // Nobody asks.
    Idle,
}

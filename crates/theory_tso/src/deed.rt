// What a step does, as far as it makes the step behind it wait, or waits for the one before it.

// A step's thread, and the number of its access or, of a move, of the store that it moves; its location; whether it is a move, a locked
// access, whether it looks at memory, that is, reads and no own pending store; and whether it puts, that is, writes memory.
#[derive(Clone, Copy)]
pub struct Deed {
    pub thread: u8,
    pub number: u8,
    pub location: u8,
    pub moves: bool,
    pub locks: bool,
    pub looks: bool,
    pub puts: bool,
}

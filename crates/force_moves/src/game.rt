// What a play goes by.
use file_decoder::Compiled;
use states_memory::Shape;

// What stays the same in all plays of a game: the program, where the assertions of each thread end, the live registers of its rows, the
// hostile side's threads, and the shape of the table of those who win.
#[derive(Clone, Copy)]
pub struct Game {
    pub program: Compiled,
    pub tails: [usize; 6],
    pub masks: [u8; 96],
    pub set: u8,
    pub shape: Shape,
}

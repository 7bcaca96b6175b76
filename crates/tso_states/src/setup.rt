// What is made ready before a walk.
use file_decoder::Compiled;
use tso_key::Spot;

// What a walk needs of a program: itself with the classes that name a group, what is left to its rows, their live registers, how wide a key is, and where it starts.
#[derive(Clone, Copy)]
pub struct Setup {
    pub program: Compiled,
    pub left: [u8; 192],
    pub masks: [u8; 96],
    pub width: usize,
    pub spot: Spot,
}

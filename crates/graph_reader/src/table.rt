// What has been read of a graph text so far. Every line that passes comes after the one before it, so that a text has few lines and each
// has its place here.
ghost use Rattle.std.specs.Prelude.{◌≡◌};
ghost use Rattle.graph_reader.specs.Held.{empty_table};

#[derive(Clone, Copy)]
pub struct Table {
    // Pairs of bytes. Pair 16 t + i is the source of access i of thread t, or fe fe where it has no line. Pair 96 + 24 l + k is write k of
    // location l, or fe fe where it has no such write.
    pub pairs: [u8; 576],
    // How many writes each location has.
    pub counts: [usize; 8],
    // At 16 t + i whether a `41` line has named the event.
    pub seen: [bool; 96],
    // The place of the last line in the order of all lines; 0 before the first.
    pub last: usize,
}

// The table before the first line.
pub(crate) fn empty() -> Table
    ensures { result ≡ empty_table }
{
    Table {
        pairs: [254u8; 576],
        counts: [0usize; 8],
        seen: [false; 96],
        last: 0,
    }
}

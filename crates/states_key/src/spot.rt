// A prefix of a run as the walk by states holds it.
use search_place::Place;

// A place of the search, and of each thread its way: the locations of its latest twelve accesses, three bits each, the latest lowest.
#[derive(Clone, Copy)]
pub struct Spot {
    pub place: Place,
    pub ways: [u64; 6],
}

// What the listing program prints of a file, piece by piece.
#![tactic(auto)]

// Lines of the output.
mod frames;
// The output, piece by piece.
mod pieces;

pub use pieces::{Listing, MOST_BYTES, Piece, Walk, begin, next};

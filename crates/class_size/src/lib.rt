// How large the class of a schedule is.
#![tactic(auto)]

// The permutations of six: a table, and each by its number.
mod by_number;
// Reads that two threads did, compared.
mod reads;
// Where each thread may go.
mod moving;
// Permutations counted.
mod counting;
// The call.
mod class_call;

pub use by_number::{permutation, permutation_table, unpacked};
pub use class_call::class_size;

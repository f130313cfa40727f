// A second library above the first: one file, an archive, for many shares (document 02, b; its bundle). An archive is a
// count, for each entry a pair of its offset and its length, and the entries end to end. All numbers have two bytes, the
// low byte first; offsets count from the file's start. specs/Format.antt has its bytes, and specs/Archives.antt what is
// proved of reading and writing them.
#![tactic(auto)]

mod numbers;
mod pairs;
mod reading;
mod writing;

pub use pairs::Pair;
pub use reading::{count, entry, entry_length, entry_place};
pub use writing::write;

// The most entries of an archive.
pub const MAX_ENTRIES: usize = 4096;

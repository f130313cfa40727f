// The search for the block length m, the smallest positive number that every d - z divides. It is a multiple of the
// first d - z, so only those are tried, rising (document 02, d).
ghost use Rattle.std.specs.Prelude.{◌≡◌, ℕ, ◌-◌, ◌<◌, length, get_or};
ghost use Rattle.scheme.specs.Tried.{Searched};

use crate::limits;

// What the search comes to: the block length, none where it is above the limit; and how many multiples were tried.
#[derive(Clone, Copy)]
pub(crate) struct Search {
    pub(crate) block: Option<usize>,
    pub(crate) tried: usize,
}

// `first` is the first d - z.
pub(crate) fn block_length(first: usize, z: u8, counts: &[u8]) -> Search
    requires { (0 < length counts.now) × (first ≡ get_or counts.now 0 0 - z) × ((k : ℕ) → k < length counts.now → z < get_or counts.now k 0) }
    ensures { Searched z counts.now result }
{
    let mut m: usize = 0;
    let mut tried: usize = 0;
    'search: loop {
        m += first;
        if limits::MAX_BLOCK < m {
            break 'search Search { block: None, tried };
        }
        // m is tried: the first d - z divides it, do the others?
        tried += 1;
        // By hand: document 01 names this form, a `break` with a label and a value out of the inner test.
        let mut i = 1;
        loop {
            if i == counts.len() {
                break 'search Search {
                    block: Some(m),
                    tried,
                };
            }
            if m % usize::from(counts[i] - z) != 0 {
                break;
            }
            i += 1;
        }
    }
}

// Where things stand in an archive: the count, then a pair for each entry, then the entries.
ghost use Rattle.std.specs.Prelude.{◌≡◌, ◌+◌, ◌≤◌, ◌<◌, length};
ghost use Rattle.archive.specs.Format.{max_entries, head_bytes};
ghost use Rattle.archive.specs.Pairs.{PairIs};

use crate::numbers::number_at;

// The bytes before pair i; of so many entries, those before the first of them.
pub(crate) fn head_bytes(i: usize) -> usize
    requires { i ≤ max_entries }
    ensures { result ≡ head_bytes i }
{
    2 + 4 * i
}

// What the pair of an entry says: where in the file the entry stands.
#[derive(Clone, Copy, Debug, PartialEq, Eq)]
pub struct Pair {
    pub offset: usize,
    pub length: usize,
}

// The pair of entry i.
pub(crate) fn pair_at(file: &[u8], i: usize) -> Pair
    requires { (i < max_entries) × (head_bytes i + 4 ≤ length file.now) }
    ensures { PairIs file.now i result }
{
    let at = head_bytes(i);
    Pair {
        offset: number_at(file, at),
        length: number_at(file, at + 2),
    }
}

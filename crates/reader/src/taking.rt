// How many rows an opening takes: all that are sent, or those that a range of the message needs (document 02, e). Public
// numbers alone decide it, once a call.
ghost use Rattle.std.specs.Prelude.{◌≡◌, ℕ, ◌+◌, ◌-◌, ◌%◌, ◌≤◌, ◌<◌, ltb};
ghost use Rattle.interpolation.specs.Interpolation.{side};
ghost use Rattle.scheme.specs.Limits.{max_block};
ghost use Rattle.reader.specs.Decoding as decoding;
ghost use Rattle.reader.specs.Opening.{HoldsWanted};
ghost use Rattle.reader.specs.Taking.{rows_taken, rows_by};

use crate::readers::Readers;
use interpolation::SIDE;

// Which rows are taken. No closure that counts them: it would need its own clauses in the contract of `open_range`.
#[derive(Clone, Copy)]
pub(crate) enum Take {
    All,
    Needed,
}

// The number of rows that are taken, of those that the parties send.
pub(crate) fn rows_by(take: Take, readers: Readers<'_>, start: usize, range_length: usize) -> usize
    ensures { result ≡ rows_by take readers.entry start range_length }
{
    match take {
        Take::All => readers.scheme.prefix_rows(readers.parties.len()),
        Take::Needed => rows_taken(readers, start, range_length),
    }
}

// The rows taken for a range: up to the last turn in which a byte of the range stands below degree d. Each byte does so
// in one turn alone, and in no earlier turn it stands at all, so it is not known before.
fn rows_taken(readers: Readers<'_>, start: usize, range_length: usize) -> usize
    ensures { result ≡ rows_taken readers.entry start range_length }
{
    let s = readers.scheme;
    let d = readers.parties.len();
    let groups = order::group_number(s.counts, d);
    let from = start % s.block;
    for turn in (0..s.prefix_rows(d)).rev() {
        let j = order::row_in_turn(s.block, s.z, s.counts, groups, turn);
        let mut places = [0usize; SIDE];
        rows::row_origins(s.block, s.z, s.counts, j, &mut places);
        if holds_wanted(&places, usize::from(s.z), d, s.block, from, range_length) {
            return turn + 1;
        }
    }
    0
}

// Does a byte of the range stand at one of these places, of the degrees from z up, below d? The range starts at place
// `from` of a block.
fn holds_wanted(
    places: &[usize; SIDE],
    z: usize,
    d: usize,
    block: usize,
    from: usize,
    range_length: usize,
) -> bool
    requires { (block ≤ max_block) × (from < block) × (d ≤ side) × decoding.PlacesBelow z d block places.now }
    ensures { (start : ℕ) → from ≡ start % block → HoldsWanted block start range_length z d places.now result }
{
    (z..d).any(|e| is_wanted(block, from, range_length, places[e]))
}

// Is the byte at this place of a block one of the range? It is where it is less than the range's length away from the
// place where the range starts, onwards and around.
fn is_wanted(block: usize, from: usize, range_length: usize, place: usize) -> bool
    requires { (block ≤ max_block) × (from < block) × (place < block) }
    ensures { result ≡ ltb ((place + (block - from)) % block) range_length }
{
    if from <= place {
        place - from < range_length
    } else {
        place + (block - from) < range_length
    }
}

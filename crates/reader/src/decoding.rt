// The reader's loops (document 01's opener): from the prefixes of d parties to the whole blocks, row after
// row in the reader's order, 64 blocks side by side. Only the scheme, the lengths, the number of rows and
// the weights decide a branch or an index.
ghost use Rattle.std.specs.Prelude.{◌≡◌, ℕ, ◌+◌, ◌*◌, ◌≤◌, ◌<◌, length, get_or};
ghost use Rattle.lists.specs.Without.{skipped};
ghost use Rattle.gf256.specs.Lanes.{lanes};
ghost use Rattle.interpolation.specs.Interpolation.{side};
ghost use Rattle.reader.specs.Decoding as decoding;
ghost use Rattle.scheme.specs.Limits.{max_block, max_blocks};
ghost use Rattle.reader.specs.Decoding.{SolvesBatch};
ghost use Rattle.reader.specs.Prefixes.{sizes_of, Finds};
ghost use Rattle.reader.specs.Rows.{read_in, SolvesRow};

use crate::combining::combine;
use crate::copying::copy;
use crate::prefixes::Prefixes;
use crate::row::Row;
use columns::FLAT;
use gf256::lanes::LANES;
use interpolation::SIDE;

// Writes the first bytes of a column, `many` of them, `step` apart from place `at` on.
fn scatter(column: [u8; LANES], at: usize, step: usize, many: usize, work: &mut [u8])
    requires { (many ≤ lanes) × (at + lanes * step ≤ decoding.max_usize) × ((k : ℕ) → k < many → at + k * step < length work.old) }
    ensures { decoding.Scattered column at step many many work.old work.new }
{
    // The place is carried on: `at + k * step` was tried, and an opening took up to 6 % longer.
    let mut place = at;
    for k in 0..many {
        work[place] = column[k];
        place += step;
    }
}

// The sizes of what is read: the keys of a row, the number of parties, the block length, the blocks, the
// bytes of a prefix, and the place of the prefix that is passed over, which is past them where none is.
#[derive(Clone, Copy)]
pub(crate) struct Sizes {
    pub(crate) z: usize,
    pub(crate) d: usize,
    pub(crate) block: usize,
    pub(crate) blocks: usize,
    pub(crate) prefix: usize,
    pub(crate) skip: usize,
}

// Those of the prefixes.
pub(crate) fn sizes_of(prefixes: Prefixes<'_>) -> Sizes
    ensures { result ≡ sizes_of prefixes.entry }
{
    let s = prefixes.scheme;
    Sizes {
        z: usize::from(s.z),
        d: prefixes.d,
        block: s.block,
        blocks: prefixes.blocks,
        prefix: s.prefix_rows(prefixes.d) * prefixes.blocks,
        skip: prefixes.skip,
    }
}

// The place of the prefix that is read as number a where the one at place `skip` is passed over.
pub(crate) fn place_of(skip: usize, a: usize) -> usize
    requires { a < side }
    ensures { result ≡ skipped skip a }
{
    if a < skip { a } else { a + 1 }
}

// Copies bytes of a prefix into a column, and counts them.
fn load(from: &[u8], used: &mut usize, out: &mut [u8])
    requires { (length out.old ≡ length from.now) × (used.old + length from.now ≤ decoding.max_usize) }
    ensures { (used.new ≡ used.old + length from.now) × (out.new ≡ from.now) }
{
    *used += from.len();
    copy(from, out);
}

impl Row<'_> {
    // Writes the columns of the row's coefficients from degree d up to their places in the buffer of columns: they are
    // found already and stand in the work buffer.
    pub(crate) fn known(&self, work: &[u8], t: usize, columns: &mut [u8])
        requires { (t ≤ self.now.sizes.blocks) × (length columns.old ≡ side * lanes) }
        ensures { decoding.KnownColumns work.now self.now.places.now self.now.sizes.d self.now.top t self.now.sizes.block columns.new }
    {
        let m = self.sizes.block;
        for e in self.sizes.d..self.top {
            let at = e * LANES;
            let end = at + LANES;
            columns::gather_into(work, t * m + self.places[e], m, &mut columns[at..end]);
        }
    }

    // Writes the bytes of d parties in the blocks from t on, `many` of them, to the first d columns of the buffer. Those
    // from d up stay: they are the known ones.
    pub(crate) fn load_parties(&self, t: usize, many: usize, used: &mut usize, columns: &mut [u8])
        requires { (many ≤ lanes) × (t + many ≤ self.now.sizes.blocks) × (length columns.old ≡ side * lanes) × (used.old + self.now.sizes.d * many ≤ decoding.max_usize) }
        ensures counted { used.new ≡ used.old + self.now.sizes.d * many }
        ensures loaded { decoding.SentColumns (read_in self.now) self.now.sizes.prefix (self.now.q + t) many self.now.sizes.d columns.old columns.new }
    {
        let sizes = self.sizes;
        let q = self.q + t;
        for a in 0..sizes.d {
            let at = place_of(sizes.skip, a) * sizes.prefix + q;
            let after = at + many;
            let from = a * LANES;
            let end = from + many;
            load(&self.prefixes[at..after], used, &mut columns[from..end]);
        }
    }
}

// Writes the coefficients of degrees z to d - 1 of a row in the blocks of m bytes from t on, `many` of them, to their places:
// each is the sum of the first `top` columns, times their weights at its degree.
pub(crate) fn solve_batch(
    columns: &[u8],
    weights: &[[u8; SIDE]; SIDE],
    places: &[usize; SIDE],
    z: usize,
    d: usize,
    top: usize,
    t: usize,
    m: usize,
    many: usize,
    work: &mut [u8],
)
    requires sums { (length columns.now ≡ side * lanes) × (z ≤ d) × (d ≤ side) × (top ≤ side) }
    requires blocks { (many ≤ lanes) × (t ≤ max_blocks) × (m ≤ max_block) × decoding.PlacesBelow z d m places.now × ((t + many) * m ≤ length work.old) }
    ensures { SolvesBatch columns.now weights.now places.now z d top t m many work.old work.new }
{
    for e in z..d {
        // With an end that the compiler knows it makes no test of the columns' number for each of them.
        let column = combine(&columns[..FLAT], weights, top, e);
        scatter(column, t * m + places[e], m, many, work);
    }
}

// One row of the blocks from t on, `many` of them: the coefficients from degree d up are known, and
// those of degrees z to d - 1 are found and written to their places. Each is the sum of the d parties'
// bytes and of the known coefficients, times their weights.
fn decode_batch(
    row: &Row<'_>,
    weights: &[[u8; SIDE]; SIDE],
    t: usize,
    many: usize,
    used: &mut usize,
    columns: &mut [u8],
    work: &mut [u8],
)
    requires room { (length columns.old ≡ side * lanes) × (length work.old ≡ row.now.sizes.blocks * row.now.sizes.block) }
    requires batch { (many ≤ lanes) × (t + many ≤ row.now.sizes.blocks) × (used.old + row.now.sizes.d * many ≤ decoding.max_usize) }
    ensures counted { used.new ≡ used.old + row.now.sizes.d * many }
    ensures solved { SolvesRow row.now weights.now t (t + many) work.old work.new }
{
    let sizes = row.sizes;
    row.known(work, t, columns);
    row.load_parties(t, many, used, columns);
    solve_batch(
        columns,
        weights,
        row.places,
        sizes.z,
        sizes.d,
        row.top,
        t,
        sizes.block,
        many,
        work,
    );
}

// One row of all blocks. The buffer of columns is made once: to clear it for each batch would take a
// twelfth of the time.
fn decode_row(row: &Row<'_>, weights: [[u8; SIDE]; SIDE], used: &mut usize, work: &mut [u8])
    requires room { length work.old ≡ row.now.sizes.blocks * row.now.sizes.block }
    requires counter { used.old + row.now.sizes.d * row.now.sizes.blocks ≤ decoding.max_usize }
    ensures counted { used.new ≡ used.old + row.now.sizes.d * row.now.sizes.blocks }
    ensures solved { SolvesRow row.now weights 0 row.now.sizes.blocks work.old work.new }
{
    let blocks = row.sizes.blocks;
    let mut columns = [0u8; FLAT];
    // A range of steps of 64 was tried: of a short message an opening took 2 % longer.
    let mut t = 0;
    while t < blocks {
        let many = columns::batch_of(blocks - t);
        decode_batch(row, &weights, t, many, used, &mut columns, work);
        t += many;
    }
}

// Decodes the rows of the first turns in the reader's order, `many` of them, from the prefixes into the work buffer of N
// whole blocks. A row's origins are found once for all blocks. The answer is the number of the prefixes' bytes that were
// used.
pub(crate) fn decode(
    prefixes: Prefixes<'_>,
    many: usize,
    weights: [[u8; SIDE]; SIDE],
    work: &mut [u8],
) -> usize
    requires { (many ≤ decoding.sent_rows prefixes.scheme prefixes.d) × (length work.old ≡ prefixes.blocks * prefixes.scheme.block) }
    ensures counted { result ≡ prefixes.entry.d * (many * prefixes.entry.blocks) }
    ensures found { Finds prefixes.entry weights many work.new }
{
    let s = prefixes.scheme;
    let sizes = sizes_of(prefixes);
    let groups = order::group_number(s.counts, prefixes.d);
    let mut used = 0;
    for turn in 0..many {
        let j = order::row_in_turn(s.block, s.z, s.counts, groups, turn);
        let mut places = [0usize; SIDE];
        let top = rows::row_origins(s.block, s.z, s.counts, j, &mut places);
        let row = Row {
            sizes,
            prefixes: prefixes.bytes,
            places: &places,
            top,
            q: j * prefixes.blocks,
        };
        decode_row(&row, weights, &mut used, work);
    }
    used
}

// A party's whole share, from the whole shares of d parties and the blocks that were decoded from them: row after row, 64
// blocks side by side. A row's value at the party's point is a sum of the d parties' bytes and of the row's known
// coefficients, each times a weight that depends on the points alone, so no key is ever worked out. Only the scheme, the
// lengths and the weights decide a branch or an index.
ghost use Rattle.std.specs.Prelude.{◌≡◌, ◌+◌, ◌*◌, ◌≤◌, length};
ghost use Rattle.scheme.specs.Limits.{max_block, max_blocks};
ghost use Rattle.reader.specs.Decoding as decoding;
ghost use Rattle.reader.specs.Filling.{FirstColumn};
ghost use Rattle.reader.specs.Prefixes.{Fills};
ghost use Rattle.reader.specs.Rows.{FillsBlocks};

use crate::decoding::{sizes_of, solve_batch};
use crate::prefixes::Prefixes;
use crate::row::Row;
use columns::FLAT;
use interpolation::SIDE;

// The weights as the first column of a table, as the sums of an opening take them.
fn in_first_column(chosen: &[u8; SIDE]) -> [[u8; SIDE]; SIDE]
    ensures { FirstColumn chosen.now result }
{
    let mut table = [[0u8; SIDE]; SIDE];
    for i in 0..SIDE {
        table[i][0] = chosen[i];
    }
    table
}

// One row of all blocks, written from place q of the output on.
fn fill_row(row: &Row<'_>, weights: &[[u8; SIDE]; SIDE], work: &[u8], out: &mut [u8])
    requires { (row.now.q + row.now.sizes.blocks ≤ length out.old) × (length out.old ≤ max_block * max_blocks) }
    ensures { FillsBlocks row.now weights.now work.now row.now.sizes.blocks out.old out.new }
{
    let blocks = row.sizes.blocks;
    let mut columns = [0u8; FLAT];
    // One byte a block, where the values stand in for a coefficient of degree 0.
    let first = [0usize; SIDE];
    // A range of steps of 64 was tried: of a short message a rebuilding took 4 % longer.
    let mut t = 0;
    while t < blocks {
        let many = columns::batch_of(blocks - t);
        row.known(work, t, &mut columns);
        let mut used = 0;
        row.load_parties(t, many, &mut used, &mut columns);
        let at = row.q + t;
        let end = at + many;
        solve_batch(
            &columns,
            weights,
            &first,
            0,
            1,
            row.top,
            0,
            1,
            many,
            &mut out[at..end],
        );
        t += many;
    }
}

// Fills the output with the share at a point, by the weights of that point. The work buffer has the blocks that were
// decoded from the same prefixes, which are whole shares.
pub(crate) fn fill_share(prefixes: Prefixes<'_>, chosen: &[u8; SIDE], work: &[u8], out: &mut [u8])
    requires whole { decoding.sent_rows prefixes.scheme prefixes.d ≡ prefixes.scheme.rows }
    requires room { length out.old ≡ prefixes.scheme.rows * prefixes.blocks }
    ensures { Fills prefixes.entry chosen.now work.now out.new }
{
    let s = prefixes.scheme;
    let sizes = sizes_of(prefixes);
    let weights = in_first_column(chosen);
    for j in 0..s.rows {
        let mut places = [0usize; SIDE];
        let top = rows::row_origins(s.block, s.z, s.counts, j, &mut places);
        let row = Row {
            sizes,
            prefixes: prefixes.bytes,
            places: &places,
            top,
            q: j * prefixes.blocks,
        };
        fill_row(&row, &weights, work, out);
    }
}

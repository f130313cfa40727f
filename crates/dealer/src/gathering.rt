// The coefficients of a row, gathered in 64 blocks at a time. No branch and no place depends on a byte of the message or
// of the keys.
ghost use Rattle.std.specs.Prelude.{◌≡◌, ℕ, ◌*◌, ◌≤◌, ◌<◌, length};
ghost use Rattle.lists.specs.Table.{tabulate};
ghost use Rattle.gf256.specs.Lanes.{lanes};
ghost use Rattle.interpolation.specs.Interpolation.{side};
ghost use Rattle.scheme.specs.Limits.{max_blocks};
ghost use Rattle.columns.specs.Columns.{flat_columns};
ghost use Rattle.staircase.specs.Coefficients.{origin};
ghost use Rattle.rows.specs.Sources.{RowOrigins};
ghost use Rattle.dealer.specs.Sources.{column_of};

use crate::source::Source;
use gf256::lanes::LANES;

impl Source<'_> {
    // Writes the coefficients of degree e of row j in 64 blocks from t on: key bytes below z, else the bytes of the
    // message, or what follows it, at the coefficient's place in a block.
    fn column(&self, place: usize, t: usize, j: usize, e: usize, out: &mut [u8])
        requires blocks { t ≤ max_blocks }
        requires row { j < self.now.scheme.rows }
        requires place { self.now.scheme.z ≤ e → (place < self.now.scheme.block) × (place ≡ origin self.now.scheme.block self.now.scheme.z self.now.scheme.counts.now j e) }
        requires degree { e < side }
        requires long { length out.old ≡ lanes }
        ensures { out.new ≡ column_of self.now t j e }
    {
        let z = usize::from(self.scheme.z);
        let rows = self.scheme.rows;
        let block = self.scheme.block;
        if e < z {
            columns::gather_into(self.keys, (t * rows + j) * z + e, rows * z, out);
            return;
        }
        columns::gather_into(self.message, t * block + place, block, out);
        self.end.mark(t, place, out);
    }

    // Writes the columns of row j in 64 blocks from t on, one for each of its d coefficients.
    pub(crate) fn row_columns(
        &self,
        places: &[usize],
        t: usize,
        j: usize,
        d: usize,
        columns: &mut [u8],
    )
        requires blocks { t ≤ max_blocks }
        requires row { j < self.now.scheme.rows }
        requires degrees { d ≤ side }
        requires places { RowOrigins self.now.scheme.block self.now.scheme.z self.now.scheme.counts.now j d places.now }
        requires long { length columns.old ≡ side * lanes }
        ensures { flat_columns d columns.new ≡ tabulate d (column_of self.now t j) }
    {
        for e in 0..d {
            let from = e * LANES;
            let to = from + LANES;
            self.column(places[e], t, j, e, &mut columns[from..to]);
        }
    }
}

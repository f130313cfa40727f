// A row of all blocks, as it is read.
ghost use Rattle.reader.specs.Decoding.{SizesFit, RowFits, read_by};

use crate::decoding::Sizes;
use interpolation::SIDE;

// The prefixes that are read, one after another, with their sizes; and of the row its coefficients' number, their places in
// a block by degree, and the place in each prefix where its bytes begin.
#[derive(Clone, Copy)]
pub(crate) struct Row<'a> {
    pub(crate) sizes: Sizes,
    pub(crate) prefixes: &'a [u8],
    pub(crate) places: &'a [usize; SIDE],
    pub(crate) top: usize,
    pub(crate) q: usize,
    ghost sizes_fit: { SizesFit sizes (read_by sizes prefixes.now) },
    ghost row_fits: { RowFits sizes top q places.now },
}

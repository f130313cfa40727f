// The prefixes that a reader of d parties has, with what is known of them.
ghost use Rattle.reader.specs.Decoding.{Input, read_from};

use scheme::Scheme;

// Those of d parties and N blocks, P × N bytes each and one after another. The one at place `skip` is passed over: there is
// one more then, or none is where it is d.
#[derive(Clone, Copy)]
pub(crate) struct Prefixes<'a> {
    pub(crate) scheme: Scheme<'a>,
    pub(crate) d: usize,
    pub(crate) skip: usize,
    pub(crate) blocks: usize,
    pub(crate) bytes: &'a [u8],
    ghost input: { Input scheme scheme.counts.now d blocks (read_from scheme d blocks skip bytes.now) },
}

// Whole shares of N blocks, those of the parties of a list. One of them can be left out of all that is made of them.
ghost use Rattle.reader.specs.Agreeing.{Lending};

use scheme::Scheme;

// The one at place `skip` is left out, none where there is no such place. n - r shares or more are left.
#[derive(Clone, Copy)]
pub(crate) struct Lent<'a> {
    pub(crate) scheme: Scheme<'a>,
    pub(crate) blocks: usize,
    pub(crate) parties: &'a [u8],
    pub(crate) shares: &'a [u8],
    pub(crate) skip: usize,
    ghost lending: { Lending scheme parties.now blocks skip shares.now },
}

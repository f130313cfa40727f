// The parties whose prefixes are read, with what is known of them.
ghost use Rattle.std.specs.Prelude.{◌≡◌, false, length};
ghost use Rattle.scheme.specs.Readers.{readers_refused};
ghost use Rattle.reader.specs.Decoding.{Counted};

use scheme::Scheme;

// Their number is a count of the scheme, and their numbers rise and are within 1 to n.
#[derive(Clone, Copy)]
pub(crate) struct Readers<'a> {
    pub(crate) scheme: Scheme<'a>,
    pub(crate) parties: &'a [u8],
    ghost counted: { Counted scheme scheme.counts.now (length parties.now) },
    ghost rising: { readers_refused scheme.n parties.now ≡ false },
}

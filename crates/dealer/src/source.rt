// What the shares are made of: a message, the byte right after it and the keys, in a scheme.
ghost use Rattle.std.specs.Prelude.{◌≡◌};
ghost use Rattle.dealer.specs.Columns.{EndsThere};

use crate::follower::Follower;
use scheme::Scheme;

#[derive(Clone, Copy)]
pub(crate) struct Source<'a> {
    pub(crate) scheme: Scheme<'a>,
    pub(crate) message: &'a [u8],
    pub(crate) end: Follower,
    pub(crate) keys: &'a [u8],
    pub(crate) ghost ends: { EndsThere scheme end message.now },
}

impl<'a> Source<'a> {
    // Zeros follow the byte `after`.
    pub(crate) fn new(
        scheme: Scheme<'a>,
        message: &'a [u8],
        after: u8,
        keys: &'a [u8],
    ) -> Source<'a>
        ensures { (result.scheme ≡ scheme.entry) × (result.message ≡ message.entry) × (result.end.byte ≡ after) × (result.keys ≡ keys.entry) }
    {
        let end = Follower {
            block: message.len() / scheme.block,
            place: message.len() % scheme.block,
            byte: after,
        };
        Source {
            scheme,
            message,
            end,
            keys,
        }
    }
}

// Why a call is refused. The first of these that applies is answered, in the order that the rules give for the call.
ghost use Rattle.std.specs.Prelude.{◌≡◌};

#[derive(Clone, Copy, Debug, PartialEq, Eq)]
pub enum Refusal {
    // n is below 2 or above its limit.
    Parties = 1,
    // z is 0, or r + z is n or more.
    AbsentOrColluding = 2,
    // The counts are none or too many, do not fall strictly, start above n or do not end at n - r.
    Counts = 3,
    // The block length is above its limit.
    BlockLength = 4,
    // The message is too long.
    MessageLength = 5,
    // The number of parties that are read is no count.
    Readers = 6,
    // The parties' numbers do not rise strictly, or one is outside 1 to n.
    PartyNumbers = 7,
    // There are not as many key bytes as the message takes.
    KeysLength = 8,
    // What is lent of the shares has not the length that it has to have.
    ShareLength = 9,
    // The output has not the length of what is written.
    OutputLength = 10,
    // The blocks do not end as those of a padded message do.
    Padding = 11,
    // An archive's count or a pair is cut short, or the count is above its limit.
    ArchiveCount = 12,
    // An archive's pairs or its end break the rules.
    ArchiveEntries = 13,
    // No entry has this number.
    EntryNumber = 14,
    // The range ends past the message.
    Range = 15,
    // The pool's record is not that of its bytes, or too few are left.
    Pool = 16,
    // Fewer shares are lent than n - r.
    TooFewShares = 17,
}

impl Refusal {
    ghost use Rattle.scheme.specs.Refusals.{number};

    // The number that the rules give it.
    pub fn number(self) -> u8
        ensures { result ≡ number self }
    {
        self as u8
    }
}

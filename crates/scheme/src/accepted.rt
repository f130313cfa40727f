// A scheme that the check accepted, and what follows from its parameters.
ghost use Rattle.std.specs.Prelude.{◌≡◌};
ghost use Rattle.scheme.specs.Accepted.{IsAccepted};

// The parameters, the block length m and the rows b of a block. Only the check makes one, so whoever has it need not test
// them again.
#[derive(Clone, Copy)]
pub struct Scheme<'a> {
    pub n: u8,
    pub r: u8,
    pub z: u8,
    pub counts: &'a [u8],
    pub block: usize,
    pub rows: usize,
    pub ghost accepted: { IsAccepted n r z counts.now block rows },
}

// The numbers of a scheme that the check accepted. A `Scheme` lends on the counts that the check was lent; these can be kept
// when those are changed or gone.
#[derive(Clone, Copy, Debug, PartialEq, Eq)]
pub struct SchemeNumbers {
    pub n: u8,
    pub r: u8,
    pub z: u8,
    pub block: usize,
    pub rows: usize,
}

impl Scheme<'_> {
    // All of the scheme but its counts.
    pub fn numbers(self) -> SchemeNumbers
        ensures { (result.n ≡ self.entry.n) × (result.r ≡ self.entry.r) × (result.z ≡ self.entry.z) × (result.block ≡ self.entry.block) × (result.rows ≡ self.entry.rows) }
    {
        SchemeNumbers {
            n: self.n,
            r: self.r,
            z: self.z,
            block: self.block,
            rows: self.rows,
        }
    }
}

// The byte right after the message, 0 or the marker of its end: the two forms of message differ in it and in their blocks.
ghost use Rattle.std.specs.Prelude.{◌≡◌, length};
ghost use Rattle.gf256.specs.Lanes.{lanes};
ghost use Rattle.dealer.specs.Columns.{Followed};

use gf256::lanes::LANES;

// That byte, and where it stands: in which block, and at which place of it. All after it is 0.
#[derive(Clone, Copy)]
pub(crate) struct Follower {
    pub(crate) block: usize,
    pub(crate) place: usize,
    pub(crate) byte: u8,
}

impl Follower {
    // In the column of a place in 64 blocks from t on, puts the byte where it stands, if it does. Only lengths decide that.
    pub(crate) fn mark(self, t: usize, place: usize, column: &mut [u8])
        requires { length column.old ≡ lanes }
        ensures { Followed self.block self.place self.byte t place column.old column.new }
    {
        if place != self.place || self.block < t {
            return;
        }
        let k = self.block - t;
        if k < LANES {
            column[k] = self.byte;
        }
    }
}

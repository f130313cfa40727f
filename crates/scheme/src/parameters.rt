// A scheme's parameters, as a call is given them: n parties, of which r may be absent and z may collude, and the counts of
// parties from which a message is reconstructed. Any numbers: a call checks them first.
ghost use Rattle.std.specs.Prelude.{◌≡◌};
ghost use Rattle.scheme.specs.Limits.{default_n, default_r, default_z, default_counts};

use crate::limits;

#[derive(Clone, Copy)]
pub struct Parameters<'a> {
    pub n: u8,
    pub r: u8,
    pub z: u8,
    pub counts: &'a [u8],
}

// The default scheme's.
impl Default for Parameters<'static> {
    fn default() -> Parameters<'static>
        ensures { (result.n ≡ default_n) × (result.r ≡ default_r) × (result.z ≡ default_z) × (result.counts.now ≡ default_counts) }
    {
        Parameters {
            n: limits::DEFAULT_N,
            r: limits::DEFAULT_R,
            z: limits::DEFAULT_Z,
            counts: &limits::DEFAULT_COUNTS,
        }
    }
}

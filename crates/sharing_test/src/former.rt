// The former default (document 02, c), under which shares are stored: nothing in a share tells its scheme, so it is named.
use scheme::limits::{FORMER_DEFAULT_COUNTS, FORMER_DEFAULT_N, FORMER_DEFAULT_R, FORMER_DEFAULT_Z};
use sharing::Parameters;

pub(crate) const FORMER: Parameters<'static> = Parameters {
    n: FORMER_DEFAULT_N,
    r: FORMER_DEFAULT_R,
    z: FORMER_DEFAULT_Z,
    counts: &FORMER_DEFAULT_COUNTS,
};

// The exports of the call that rebuilds a party's share.
ghost use Rattle.staircase.specs.Parameters.{parameters, default_parameters};
ghost use Rattle.exports.specs.Fields.{RebuildFields};

use exports::rebuild::SharingRebuildAnswer;

#[unsafe(no_mangle)]
pub extern "C" fn sharing_rebuild(
    n: u8,
    r: u8,
    z: u8,
    counts: &[u8],
    parties: &[u8],
    shares: &[u8],
    party: u8,
    held: &[u8],
    out: &mut [u8],
) -> SharingRebuildAnswer
    ensures { RebuildFields (parameters n r z counts.now) parties.now shares.now party held.now out.old result out.new }
{
    exports::rebuild::sharing_rebuild(n, r, z, counts, parties, shares, party, held, out)
}

#[unsafe(no_mangle)]
pub extern "C" fn sharing_rebuild_default(
    parties: &[u8],
    shares: &[u8],
    party: u8,
    held: &[u8],
    out: &mut [u8],
) -> SharingRebuildAnswer
    ensures { RebuildFields default_parameters parties.now shares.now party held.now out.old result out.new }
{
    exports::rebuild::sharing_rebuild_default(parties, shares, party, held, out)
}

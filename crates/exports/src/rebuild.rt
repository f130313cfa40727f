// The C boundary of the call that rebuilds a party's share (document 02, h).
ghost use Rattle.std.specs.Prelude.{◌≡◌};
ghost use Rattle.staircase.specs.Parameters.{parameters, default_parameters};
ghost use Rattle.reader.specs.Rebuild.{rebuild_outcome};
ghost use Rattle.exports.specs.Fields.{rebuild_fields, rebuilt_fields, RebuildFields};

use sharing::{Parameters, RebuildRefusal};

// In how many bytes the held copy differs; the party named stands beside refusal 18.
#[repr(C)]
#[derive(Clone, Copy)]
pub struct SharingRebuildAnswer {
    pub refusal: u64,
    pub differing: u64,
    pub party: u64,
}

pub fn sharing_rebuild(
    n: u8,
    r: u8,
    z: u8,
    counts: &[u8],
    parties: &[u8],
    shares: &[u8],
    party: u8,
    held: &[u8],
    out: &mut [u8],
) -> SharingRebuildAnswer
    ensures { RebuildFields (parameters n r z counts.now) parties.now shares.now party held.now out.old result out.new }
{
    let given = Parameters { n, r, z, counts };
    sharing::rebuild(given, parties, shares, party, held, out).into()
}

pub fn sharing_rebuild_default(
    parties: &[u8],
    shares: &[u8],
    party: u8,
    held: &[u8],
    out: &mut [u8],
) -> SharingRebuildAnswer
    ensures { RebuildFields default_parameters parties.now shares.now party held.now out.old result out.new }
{
    sharing::rebuild(Parameters::default(), parties, shares, party, held, out).into()
}

impl From<Result<usize, RebuildRefusal>> for SharingRebuildAnswer {
    ghost from_gives = { λ answer a. rebuild_fields a ≡ rebuilt_fields (rebuild_outcome answer) };

    fn from(answer: Result<usize, RebuildRefusal>) -> SharingRebuildAnswer {
        match answer {
            Ok(differing) => SharingRebuildAnswer {
                refusal: 0,
                differing: differing as u64,
                party: 0,
            },
            // The number that C knows it by; of the other calls none has it.
            Err(RebuildRefusal::Disagreeing { party }) => SharingRebuildAnswer {
                refusal: 18,
                differing: 0,
                party: u64::from(party),
            },
            Err(RebuildRefusal::Refused(refusal)) => SharingRebuildAnswer {
                refusal: u64::from(refusal.number()),
                differing: 0,
                party: 0,
            },
        }
    }
}

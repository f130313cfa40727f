// The C boundary of the check that tells how many multiples it tried (document 02, d).
ghost use Rattle.std.specs.Prelude.{◌≡◌};
ghost use Rattle.scheme.specs.Limits.{default_n, default_r, default_z, default_counts};
ghost use Rattle.scheme.specs.Tried.{tried_outcome, checked_tried};
ghost use Rattle.exports.specs.Fields.{tried_scheme_fields, checked_tried_fields};

use crate::SharingScheme;
use scheme::{Parameters, TriedAnswer};

// The answer of the check, and how many multiples were tried, which stands beside a refusal too.
#[repr(C)]
#[derive(Clone, Copy)]
pub struct SharingTriedScheme {
    pub refusal: u64,
    pub block: u64,
    pub rows: u64,
    pub tried: u64,
}

pub fn sharing_check_tried(n: u8, r: u8, z: u8, counts: &[u8]) -> SharingTriedScheme
    ensures { tried_scheme_fields result ≡ checked_tried_fields (checked_tried n r z counts.now) }
{
    let given = Parameters { n, r, z, counts };
    scheme::check_tried(given).into()
}

pub fn sharing_check_tried_default() -> SharingTriedScheme
    ensures { tried_scheme_fields result ≡ checked_tried_fields (checked_tried default_n default_r default_z default_counts) }
{
    scheme::check_tried(Parameters::default()).into()
}

impl From<TriedAnswer<'_>> for SharingTriedScheme {
    ghost from_gives = { λ answer s. tried_scheme_fields s ≡ checked_tried_fields (tried_outcome answer) };

    fn from(answer: TriedAnswer<'_>) -> SharingTriedScheme {
        let scheme = SharingScheme::from(answer.answer);
        SharingTriedScheme {
            refusal: scheme.refusal,
            block: scheme.block,
            rows: scheme.rows,
            tried: answer.tried as u64,
        }
    }
}

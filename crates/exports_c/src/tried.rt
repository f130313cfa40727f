// The exports of the check that tells how many multiples it tried.
ghost use Rattle.std.specs.Prelude.{◌≡◌};
ghost use Rattle.scheme.specs.Limits.{default_n, default_r, default_z, default_counts};
ghost use Rattle.scheme.specs.Tried.{checked_tried};
ghost use Rattle.exports.specs.Fields.{tried_scheme_fields, checked_tried_fields};

use exports::tried::SharingTriedScheme;

#[unsafe(no_mangle)]
pub extern "C" fn sharing_check_tried(n: u8, r: u8, z: u8, counts: &[u8]) -> SharingTriedScheme
    ensures { tried_scheme_fields result ≡ checked_tried_fields (checked_tried n r z counts.now) }
{
    exports::tried::sharing_check_tried(n, r, z, counts)
}

#[unsafe(no_mangle)]
pub extern "C" fn sharing_check_tried_default() -> SharingTriedScheme
    ensures { tried_scheme_fields result ≡ checked_tried_fields (checked_tried default_n default_r default_z default_counts) }
{
    exports::tried::sharing_check_tried_default()
}

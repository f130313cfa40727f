// The static library of the C boundary. Each export calls the function of the same name in the library `exports` and states its
// clauses again. A slice is a pointer and a length; an answer is a struct whose `refusal` is 0 when the call is accepted. The
// files are those of `exports`.
#![tactic(auto)]

ghost use Rattle.std.specs.Prelude.{◌≡◌, length};
ghost use Rattle.gf256.specs.Byte.{◌⊕◌, ◌⊗◌, inverse};
ghost use Rattle.scheme.specs.Limits.{default_n, default_r, default_z, default_counts};
ghost use Rattle.scheme.specs.Check.{checked};
ghost use Rattle.staircase.specs.Parameters.{parameters, default_parameters};
ghost use Rattle.party.specs.Prefix.{prefix_answer};
ghost use Rattle.exports.specs.Fields.{inverse_fields, inverted_fields, scheme_fields, checked_fields, answer_fields, value_fields, SplitFields, ReconstructFields, BasisFields};

use exports::{Gf256InverseAnswer, SharingAnswer, SharingBasis, SharingScheme};

mod message_lengths;
mod padded;
mod pool;
mod range;
mod rebuild;
mod tried;

#[unsafe(no_mangle)]
pub extern "C" fn gf256_add(a: u8, b: u8) -> u8
    ensures { result ≡ a ⊕ b }
{
    exports::gf256_add(a, b)
}

#[unsafe(no_mangle)]
pub extern "C" fn gf256_mul(a: u8, b: u8) -> u8
    ensures { result ≡ a ⊗ b }
{
    exports::gf256_mul(a, b)
}

#[unsafe(no_mangle)]
pub extern "C" fn gf256_mul_by_shifting(a: u8, b: u8) -> u8
    ensures { result ≡ a ⊗ b }
{
    exports::gf256_mul_by_shifting(a, b)
}

#[unsafe(no_mangle)]
pub extern "C" fn gf256_inverse(a: u8) -> Gf256InverseAnswer
    ensures { inverse_fields result ≡ inverted_fields (inverse a) }
{
    exports::gf256_inverse(a)
}

#[unsafe(no_mangle)]
pub extern "C" fn sharing_check(n: u8, r: u8, z: u8, counts: &[u8]) -> SharingScheme
    ensures { scheme_fields result ≡ checked_fields (checked n r z counts.now) }
{
    exports::sharing_check(n, r, z, counts)
}

#[unsafe(no_mangle)]
pub extern "C" fn sharing_check_default() -> SharingScheme
    ensures { scheme_fields result ≡ checked_fields (checked default_n default_r default_z default_counts) }
{
    exports::sharing_check_default()
}

#[unsafe(no_mangle)]
pub extern "C" fn sharing_split(
    n: u8,
    r: u8,
    z: u8,
    counts: &[u8],
    message: &[u8],
    keys: &[u8],
    out: &mut [u8],
) -> SharingAnswer
    ensures { SplitFields (parameters n r z counts.now) message.now keys.now out.old result out.new }
{
    exports::sharing_split(n, r, z, counts, message, keys, out)
}

#[unsafe(no_mangle)]
pub extern "C" fn sharing_split_default(
    message: &[u8],
    keys: &[u8],
    out: &mut [u8],
) -> SharingAnswer
    ensures { SplitFields default_parameters message.now keys.now out.old result out.new }
{
    exports::sharing_split_default(message, keys, out)
}

// The prefix is the first `value` bytes of the share.
#[unsafe(no_mangle)]
pub extern "C" fn sharing_prefix(
    n: u8,
    r: u8,
    z: u8,
    counts: &[u8],
    message_length: usize,
    d: usize,
    share: &[u8],
) -> SharingAnswer
    ensures { answer_fields result ≡ value_fields (prefix_answer (parameters n r z counts.now) message_length d (length share.now)) }
{
    exports::sharing_prefix(n, r, z, counts, message_length, d, share)
}

#[unsafe(no_mangle)]
pub extern "C" fn sharing_prefix_default(
    message_length: usize,
    d: usize,
    share: &[u8],
) -> SharingAnswer
    ensures { answer_fields result ≡ value_fields (prefix_answer default_parameters message_length d (length share.now)) }
{
    exports::sharing_prefix_default(message_length, d, share)
}

#[unsafe(no_mangle)]
pub extern "C" fn sharing_basis(n: u8, r: u8, z: u8, counts: &[u8], parties: &[u8]) -> SharingBasis
    ensures { BasisFields (parameters n r z counts.now) parties.now result }
{
    exports::sharing_basis(n, r, z, counts, parties)
}

#[unsafe(no_mangle)]
pub extern "C" fn sharing_basis_default(parties: &[u8]) -> SharingBasis
    ensures { BasisFields default_parameters parties.now result }
{
    exports::sharing_basis_default(parties)
}

#[unsafe(no_mangle)]
pub extern "C" fn sharing_reconstruct(
    n: u8,
    r: u8,
    z: u8,
    counts: &[u8],
    message_length: usize,
    parties: &[u8],
    prefixes: &[u8],
    out: &mut [u8],
) -> SharingAnswer
    ensures { ReconstructFields (parameters n r z counts.now) message_length parties.now prefixes.now out.old result out.new }
{
    exports::sharing_reconstruct(n, r, z, counts, message_length, parties, prefixes, out)
}

#[unsafe(no_mangle)]
pub extern "C" fn sharing_reconstruct_default(
    message_length: usize,
    parties: &[u8],
    prefixes: &[u8],
    out: &mut [u8],
) -> SharingAnswer
    ensures { ReconstructFields default_parameters message_length parties.now prefixes.now out.old result out.new }
{
    exports::sharing_reconstruct_default(message_length, parties, prefixes, out)
}

// The C boundary, as a library: an answer is a struct whose `refusal` is 0 when the call is accepted. A library exports
// nothing to C, so `exports_c` has an export for each public function here, of the same name and the same contract. Those on
// padded messages stand in `padded`, those on a pool of keys in `pool`, the opener for a range in `range`, the rebuilding of
// a share in `rebuild`, the check with the number tried in `tried`, the lengths of a message in `message_lengths`. That a call
// has a twin at the default scheme, and one for padded messages, is C's interface: C links each by its name. So are the
// number that is handed over beside the values and the scheme's four arguments. A usize has no From into the structs' u64:
// it is handed over by `as`, which keeps the number.
#![tactic(auto)]

ghost use Rattle.std.specs.Prelude.{◌≡◌, length};
ghost use Rattle.gf256.specs.Byte.{◌⊕◌, ◌⊗◌, inverse};
ghost use Rattle.scheme.specs.Limits.{default_n, default_r, default_z, default_counts};
ghost use Rattle.scheme.specs.Outcome.{outcome};
ghost use Rattle.scheme.specs.SchemeOutcome.{scheme_outcome};
ghost use Rattle.scheme.specs.Check.{checked};
ghost use Rattle.staircase.specs.Parameters.{parameters, default_parameters, given_parameters};
ghost use Rattle.party.specs.Prefix.{prefix_answer};
ghost use Rattle.exports.specs.Fields.{inverse_fields, inverted_fields, scheme_fields, checked_fields, answer_fields, value_fields, flattened, SplitFields, ReconstructFields, BasisFields};

use interpolation::SIDE;
use scheme::Scheme;
use sharing::{Form, Parameters, Refusal};

pub mod message_lengths;
pub mod padded;
pub mod pool;
pub mod range;
pub mod rebuild;
pub mod tried;

#[repr(C)]
#[derive(Clone, Copy)]
pub struct SharingScheme {
    pub refusal: u64,
    pub block: u64,
    pub rows: u64,
}

#[repr(C)]
#[derive(Clone, Copy)]
pub struct SharingAnswer {
    pub refusal: u64,
    pub value: u64,
}

// Row: the place of the party in the list; column: the degree. All zero on a refusal.
#[repr(C)]
#[derive(Clone, Copy)]
pub struct SharingBasis {
    pub refusal: u64,
    pub weights: [u8; WEIGHTS],
}

const WEIGHTS: usize = SIDE * SIDE;

// 1 and the inverse, or 0 and 0 where there is none.
#[repr(C)]
#[derive(Clone, Copy)]
pub struct Gf256InverseAnswer {
    pub exists: u64,
    pub inverse: u64,
}

pub fn gf256_add(a: u8, b: u8) -> u8
    ensures { result ≡ a ⊕ b }
{
    gf256::add(a, b)
}

pub fn gf256_mul(a: u8, b: u8) -> u8
    ensures { result ≡ a ⊗ b }
{
    gf256::mul(a, b)
}

pub fn gf256_mul_by_shifting(a: u8, b: u8) -> u8
    ensures { result ≡ a ⊗ b }
{
    gf256::mul_by_shifting(a, b)
}

pub fn gf256_inverse(a: u8) -> Gf256InverseAnswer
    ensures { inverse_fields result ≡ inverted_fields (inverse a) }
{
    match gf256::inverse(a) {
        Some(x) => Gf256InverseAnswer {
            exists: 1,
            inverse: u64::from(x),
        },
        None => Gf256InverseAnswer {
            exists: 0,
            inverse: 0,
        },
    }
}

pub fn sharing_check(n: u8, r: u8, z: u8, counts: &[u8]) -> SharingScheme
    ensures { scheme_fields result ≡ checked_fields (checked n r z counts.now) }
{
    let given = Parameters { n, r, z, counts };
    scheme::check(given).into()
}

pub fn sharing_check_default() -> SharingScheme
    ensures { scheme_fields result ≡ checked_fields (checked default_n default_r default_z default_counts) }
{
    scheme::check(Parameters::default()).into()
}

impl From<Result<Scheme<'_>, Refusal>> for SharingScheme {
    ghost from_gives = { λ answer a. scheme_fields a ≡ checked_fields (scheme_outcome answer) };

    fn from(answer: Result<Scheme<'_>, Refusal>) -> SharingScheme {
        match answer {
            Ok(s) => SharingScheme {
                refusal: 0,
                block: s.block as u64,
                rows: s.rows as u64,
            },
            Err(refusal) => SharingScheme {
                refusal: u64::from(refusal.number()),
                block: 0,
                rows: 0,
            },
        }
    }
}

// Of the calls that answer one number.
impl From<Result<usize, Refusal>> for SharingAnswer {
    ghost from_gives = { λ answer a. answer_fields a ≡ value_fields (outcome answer) };

    fn from(answer: Result<usize, Refusal>) -> SharingAnswer {
        match answer {
            Ok(value) => SharingAnswer {
                refusal: 0,
                value: value as u64,
            },
            Err(refusal) => SharingAnswer {
                refusal: u64::from(refusal.number()),
                value: 0,
            },
        }
    }
}

pub fn sharing_split(
    n: u8,
    r: u8,
    z: u8,
    counts: &[u8],
    message: &[u8],
    keys: &[u8],
    out: &mut [u8],
) -> SharingAnswer
    ensures { SplitFields (parameters n r z counts.now) message.now keys.now out.old result out.new }
{
    let given = Parameters { n, r, z, counts };
    sharing::split(Form::Earlier, given, message, keys, out).into()
}

pub fn sharing_split_default(message: &[u8], keys: &[u8], out: &mut [u8]) -> SharingAnswer
    ensures { SplitFields default_parameters message.now keys.now out.old result out.new }
{
    sharing::split(Form::Earlier, Parameters::default(), message, keys, out).into()
}

// The prefix is the first `value` bytes of the share.
pub fn sharing_prefix(
    n: u8,
    r: u8,
    z: u8,
    counts: &[u8],
    message_length: usize,
    d: usize,
    share: &[u8],
) -> SharingAnswer
    ensures { answer_fields result ≡ value_fields (prefix_answer (parameters n r z counts.now) message_length d (length share.now)) }
{
    let given = Parameters { n, r, z, counts };
    sharing::prefix_length(given, message_length, d, share).into()
}

pub fn sharing_prefix_default(message_length: usize, d: usize, share: &[u8]) -> SharingAnswer
    ensures { answer_fields result ≡ value_fields (prefix_answer default_parameters message_length d (length share.now)) }
{
    sharing::prefix_length(Parameters::default(), message_length, d, share).into()
}

pub fn sharing_basis(n: u8, r: u8, z: u8, counts: &[u8], parties: &[u8]) -> SharingBasis
    ensures { BasisFields (parameters n r z counts.now) parties.now result }
{
    let given = Parameters { n, r, z, counts };
    basis_fields(given, parties)
}

pub fn sharing_basis_default(parties: &[u8]) -> SharingBasis
    ensures { BasisFields default_parameters parties.now result }
{
    basis_fields(Parameters::default(), parties)
}

fn basis_fields(given: Parameters, parties: &[u8]) -> SharingBasis
    ensures { BasisFields (given_parameters given.entry) parties.now result }
{
    let size = SharingAnswer::from(sharing::basis_size(given, parties));
    SharingBasis {
        refusal: size.refusal,
        weights: in_one_row(sharing::basis(given, parties)),
    }
}

fn in_one_row(table: [[u8; SIDE]; SIDE]) -> [u8; WEIGHTS]
    ensures { result ≡ flattened table }
{
    let mut weights = [0u8; WEIGHTS];
    for (k, weight) in weights.iter_mut().enumerate() {
        let row = table[k / SIDE];
        *weight = row[k % SIDE];
    }
    weights
}

pub fn sharing_reconstruct(
    n: u8,
    r: u8,
    z: u8,
    counts: &[u8],
    message_length: usize,
    parties: &[u8],
    prefixes: &[u8],
    out: &mut [u8],
) -> SharingAnswer
    ensures { ReconstructFields (parameters n r z counts.now) message_length parties.now prefixes.now out.old result out.new }
{
    let given = Parameters { n, r, z, counts };
    sharing::reconstruct(given, message_length, parties, prefixes, out).into()
}

pub fn sharing_reconstruct_default(
    message_length: usize,
    parties: &[u8],
    prefixes: &[u8],
    out: &mut [u8],
) -> SharingAnswer
    ensures { ReconstructFields default_parameters message_length parties.now prefixes.now out.old result out.new }
{
    let default = Parameters::default();
    sharing::reconstruct(default, message_length, parties, prefixes, out).into()
}

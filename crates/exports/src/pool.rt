// The C boundary of the splits that take their keys from a pool (document 02, f). The record is lent by a pointer, and comes
// first.
ghost use Rattle.staircase.specs.Parameters.{parameters, default_parameters};
ghost use Rattle.scheme.specs.declared.forms.Form.TheVariants.{Earlier, Padded};
ghost use Rattle.exports.specs.Fields.{PoolSplitFields};

use crate::SharingAnswer;
use sharing::{Form, KeyPool, Parameters};

pub fn sharing_split_from_pool(
    pool: &mut KeyPool,
    n: u8,
    r: u8,
    z: u8,
    counts: &[u8],
    message: &[u8],
    bytes: &[u8],
    out: &mut [u8],
) -> SharingAnswer
    ensures { PoolSplitFields Earlier (parameters n r z counts.now) message.now bytes.now pool.old out.old result out.new pool.new }
{
    let given = Parameters { n, r, z, counts };
    sharing::split_from_pool(pool, Form::Earlier, given, message, bytes, out).into()
}

pub fn sharing_split_from_pool_default(
    pool: &mut KeyPool,
    message: &[u8],
    bytes: &[u8],
    out: &mut [u8],
) -> SharingAnswer
    ensures { PoolSplitFields Earlier default_parameters message.now bytes.now pool.old out.old result out.new pool.new }
{
    let default = Parameters::default();
    sharing::split_from_pool(pool, Form::Earlier, default, message, bytes, out).into()
}

pub fn sharing_split_padded_from_pool(
    pool: &mut KeyPool,
    n: u8,
    r: u8,
    z: u8,
    counts: &[u8],
    message: &[u8],
    bytes: &[u8],
    out: &mut [u8],
) -> SharingAnswer
    ensures { PoolSplitFields Padded (parameters n r z counts.now) message.now bytes.now pool.old out.old result out.new pool.new }
{
    let given = Parameters { n, r, z, counts };
    sharing::split_from_pool(pool, Form::Padded, given, message, bytes, out).into()
}

pub fn sharing_split_padded_from_pool_default(
    pool: &mut KeyPool,
    message: &[u8],
    bytes: &[u8],
    out: &mut [u8],
) -> SharingAnswer
    ensures { PoolSplitFields Padded default_parameters message.now bytes.now pool.old out.old result out.new pool.new }
{
    let default = Parameters::default();
    sharing::split_from_pool(pool, Form::Padded, default, message, bytes, out).into()
}

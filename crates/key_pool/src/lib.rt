// A pool of key bytes (document 02's tray): random bytes of which each is used once, and the split that takes its keys
// from it. The record of a pool says how many of its bytes are used. It is lent by `&mut` and moves with each split that is
// accepted: a function that is given the record by value does the work (`drawing`), and one thin function moves the record
// by what that took (`taking`).
#![tactic(auto)]

ghost use Rattle.staircase.specs.Parameters.{given_parameters};
ghost use Rattle.key_pool.specs.Pool.{PoolSplitCall};

use drawing::draw;
use scheme::{Form, Parameters, Refusal};
use taking::take;

mod drawing;
mod taking;

// The record of a pool: how many bytes it was loaded with, and the position of the next unused one (document 02's place), 0
// when it is loaded.
#[repr(C)]
#[derive(Clone, Copy)]
pub struct KeyPool {
    pub length: usize,
    pub position: usize,
}

// Splits a message under the next bytes of the pool, and moves the record past them. On a refusal nothing is written and no
// byte is taken. Refusals 1 to 5 and 10 are those of `dealer::split`. In place of 8 there is 16: the record's length is not
// that of the pool, or its position is past it, or fewer bytes are left than the split takes.
pub fn split_from_pool(
    pool: &mut KeyPool,
    form: Form,
    given: Parameters,
    message: &[u8],
    bytes: &[u8],
    out: &mut [u8],
) -> Result<usize, Refusal>
    ensures { PoolSplitCall form (given_parameters given.entry) message.now bytes.now pool.old out.old result out.new pool.new }
{
    let drawn = draw(*pool, form, given, message, bytes, out)?;
    take(pool, drawn.bytes);
    Ok(drawn.share)
}

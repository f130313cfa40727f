// A split under the next bytes of a pool whose record is given by value: what it answers and writes, and how many bytes it
// takes.
ghost use Rattle.std.specs.Prelude.{MatchResult};
ghost use Rattle.staircase.specs.Parameters.{given_parameters};
ghost use Rattle.key_pool.specs.Pool.{taken as taken_of, PoolSplitCall};

use crate::KeyPool;
use crate::taking::lacks;
use scheme::{Form, Parameters, Refusal};

// What a split came to that was accepted: the bytes of a share, and how many key bytes it took.
#[derive(Clone, Copy)]
pub(crate) struct Drawn {
    pub(crate) share: usize,
    pub(crate) bytes: usize,
}

// Splits a message under the pool's next bytes. The splitter itself tests the output.
pub(crate) fn draw(
    pool: KeyPool,
    form: Form,
    given: Parameters,
    message: &[u8],
    bytes: &[u8],
    out: &mut [u8],
) -> Result<Drawn, Refusal>
    ensures { MatchResult result (λ d. PoolSplitCall form (given_parameters given.entry) message.now bytes.now pool out.old (Ok d.share) out.new (taken_of pool d.bytes)) (λ q. PoolSplitCall form (given_parameters given.entry) message.now bytes.now pool out.old (Err q) out.new pool) }
{
    let scheme = scheme::check(given)?;
    let blocks = scheme.blocks(form, message.len())?;
    let need = blocks * usize::from(scheme.z) * scheme.rows;
    if lacks(pool, bytes.len(), need) {
        return Err(Refusal::Pool);
    }
    let at = pool.position;
    let end = at + need;
    let share = dealer::split(form, given, message, &bytes[at..end], out)?;
    Ok(Drawn { share, bytes: need })
}

// The record of a pool: whether a split's bytes are left in it, and how it moves past them.
ghost use Rattle.std.specs.Prelude.{◌≡◌};
ghost use Rattle.key_pool.specs.Pool.{pool_refused, taken as taken_of};

use crate::KeyPool;

// Is the record not that of a pool of so many bytes, or are fewer left than are needed?
pub(crate) fn lacks(pool: KeyPool, bytes: usize, need: usize) -> bool
    ensures { result ≡ pool_refused pool bytes need }
{
    if pool.length != bytes || pool.length < pool.position {
        return true;
    }
    pool.length - pool.position < need
}

// The record past so many more bytes; unchanged where they are not there.
fn taken(pool: KeyPool, bytes: usize) -> KeyPool
    ensures { result ≡ taken_of pool bytes }
{
    if pool.position <= pool.length && bytes <= pool.length - pool.position {
        return KeyPool {
            length: pool.length,
            position: pool.position + bytes,
        };
    }
    pool
}

// Takes so many bytes out of the pool.
pub(crate) fn take(pool: &mut KeyPool, bytes: usize)
    ensures { pool.new ≡ taken_of pool.old bytes }
{
    *pool = taken(*pool, bytes);
}

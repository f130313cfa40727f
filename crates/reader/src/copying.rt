// Copying bytes into a column, 64 at a time where there are 64. `copy_from_slice` was tried, for all of it and for the 64
// alone: an opening took 1 to 4 % longer.
ghost use Rattle.std.specs.Prelude.{◌≡◌, length};
ghost use Rattle.gf256.specs.Lanes.{lanes};

use gf256::lanes::LANES;

// Fills the output with bytes, of which there are as many.
pub(crate) fn copy(from: &[u8], out: &mut [u8])
    requires { length out.old ≡ length from.now }
    ensures { out.new ≡ from.now }
{
    if out.len() == LANES {
        // A batch of 64 goes through an array: from slice to slice the compiler copies byte by byte.
        store(columns::column(from, 0), out);
        return;
    }
    for i in 0..out.len() {
        out[i] = from[i];
    }
}

// Fills an output of 64 bytes.
fn store(values: [u8; LANES], out: &mut [u8])
    requires { length out.old ≡ lanes }
    ensures { out.new ≡ values }
{
    for k in 0..LANES {
        out[k] = values[k];
    }
}

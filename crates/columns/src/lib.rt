// 64 blocks side by side: column e holds the coefficient of degree e of one row in each of them.
#![tactic(auto)]

ghost use Rattle.std.specs.Prelude.{◌≡◌, ℕ, ◌+◌, ◌*◌, ◌≤◌, ◌<◌, min, length, replicate};
ghost use Rattle.gf256.specs.Lanes.{lanes};
ghost use Rattle.interpolation.specs.RowValue.{values_of};
ghost use Rattle.columns.specs.Columns.{strided_for, Inside, flat_column, flat_columns};

use gf256::lanes::LANES;
use interpolation::{RowValue, SIDE};

// Bytes `step` apart from place `at` on, as many as the slice has, which are 64 in every call of this
// library; 0 past the end. How many places lie inside is found once, so that none has to be tested.
pub fn gather_into(s: &[u8], at: usize, step: usize, out: &mut [u8])
    ensures { out.new ≡ strided_for (length out.old) s.now at step }
{
    let inside = count_inside(s.len(), at, step, out.len());
    // Apart from the others, since the compiler makes better code where it knows that there are 64.
    if inside == LANES && out.len() == LANES {
        strided_into(s, at, step, out);
        return;
    }
    clear(out);
    strided_into(s, at, step, &mut out[..inside]);
}

// How many of the first `most` places lie inside. Almost always 63 steps do, and with them all places: a
// division by a constant, which is cheap, finds that (at + 63 × step may not fit a usize). Else one by
// the step counts them.
fn count_inside(size: usize, at: usize, step: usize, most: usize) -> usize
    ensures { Inside size at step most result }
{
    if size <= at {
        return 0;
    }
    let last = size - 1 - at;
    if most <= LANES && step <= last / (LANES - 1) {
        return most;
    }
    // Only the first: a message of one block asks this of every coefficient.
    if last < step {
        return most.min(1);
    }
    if step == 0 {
        return most;
    }
    most.min(last / step + 1)
}

// The same where all places lie inside: four a turn, since the compiler makes better code of the inner loop where it
// knows its length, and the last three at most. Not by `chunks_exact_mut`: of what is written through its chunks a proof
// knows nothing.
fn strided_into(s: &[u8], at: usize, step: usize, out: &mut [u8])
    requires { (k : ℕ) → k < length out.old → at + k * step < length s.now }
    ensures { out.new ≡ strided_for (length out.old) s.now at step }
{
    let turns = out.len() / 4;
    for turn in 0..turns {
        let k = turn * 4;
        fill_each(s, at + k * step, step, &mut out[k..k + 4]);
    }
    let done = turns * 4;
    if done < out.len() {
        fill_each(s, at + done * step, step, &mut out[done..]);
    }
}

// The same one by one.
fn fill_each(s: &[u8], at: usize, step: usize, out: &mut [u8])
    requires { (k : ℕ) → k < length out.old → at + k * step < length s.now }
    ensures { out.new ≡ strided_for (length out.old) s.now at step }
{
    for k in 0..out.len() {
        out[k] = s[at + k * step];
    }
}

// Makes every byte 0. The loop is faster than `fill`, which writes the last byte by itself: gathering for a message of
// one block took up to a third longer with it.
fn clear(out: &mut [u8])
    ensures { out.new ≡ replicate (length out.old) 0 }
{
    for byte in out.iter_mut() {
        *byte = 0;
    }
}

// The bytes of 16 columns of 64, one after another.
pub const FLAT: usize = SIDE * LANES;

// The row's values at a point, from the first d of the columns that stand one after another; d is cut
// to 16. It starts at the last of them: from zeros, the first step would only find that column again.
pub fn flat_values(columns: &[u8; FLAT], d: usize, point: u8) -> [u8; LANES]
    ensures { result ≡ values_of point (flat_columns d columns.now) }
{
    let top = d.min(SIDE);
    if top == 0 {
        return RowValue::new(point).values;
    }
    let mut value = RowValue::starting(point, flat_column(columns, top - 1));
    for e in (0..top - 1).rev() {
        value = value.next(flat_column(columns, e));
    }
    value.values
}

// Column e of those that stand one after another; what is past the end is 0.
pub fn column(columns: &[u8], e: usize) -> [u8; LANES]
    ensures { result ≡ flat_column columns.now e }
{
    let whole = columns.len() / LANES;
    if e < whole {
        return flat_column(columns, e);
    }
    let mut part = [0u8; LANES];
    if e == whole {
        gather_into(columns, e * LANES, 1, &mut part);
    }
    part
}

// Column e where all of it is there. The loop is faster than `copy_from_slice`, of which the compiler makes two copies.
fn flat_column(columns: &[u8], e: usize) -> [u8; LANES]
    requires { e * lanes + lanes ≤ length columns.now }
    ensures { result ≡ flat_column columns.now e }
{
    let mut column = [0u8; LANES];
    for k in 0..LANES {
        column[k] = columns[e * LANES + k];
    }
    column
}

// The blocks of the next batch, of those that are left: at most 64.
pub fn batch_of(left: usize) -> usize
    ensures { result ≡ min left lanes }
{
    left.min(LANES)
}

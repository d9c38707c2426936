// Bytes that go to a lent buffer: copied, put in front of what is written at the high end of a scratch, and, the last step of every
// printer, written to the caller's output if that has room for them.
#![tactic(auto)]

ghost use Rattle.std.specs.Prelude.{◌≡◌, ◌++◌, ◌+◌, ◌≤◌, length, drop, take};
ghost use Rattle.std.proofs.Math.Seq.{paste};
ghost use Rattle.record.specs.Tokens.{bytes_in, InPool};
ghost use Rattle.output.specs.Layers.{Stands, WritesOut};

use answer::{Reason, Refusal};
use record::TokenRecord;

// Copies `len` bytes of `from`, from `place` on, to `to` from `at` on. Places, not two slices: what callers go on from is that the rest of
// `to` stays, which `paste` of the whole says. A loop of its own: `copy_from_slice` calls memmove, which an archive for C would then want
// from outside.
pub fn copy(from: &[u8], place: usize, len: usize, to: &mut [u8], at: usize)
    requires { (place + len ≤ length from.now) × (at + len ≤ length to.old) }
    ensures { to.new ≡ paste to.old at (drop place from.now) len }
{
    for i in 0..len {
        to[at + i] = from[place + i];
    }
}

// Stores `len` bytes of the pool, from `place` on, in front of what is written from `at` on: where what is written then begins, or that
// there is no room for it.
fn put_before(pool: &[u8], place: usize, len: usize, scratch: &mut [u8], at: usize) -> Option<usize>
    requires { (place + len ≤ length pool.now) × (at ≤ length scratch.old) }
    ensures { Stands result (take len (drop place pool.now) ++ drop at scratch.old) scratch.new }
{
    let start = at.checked_sub(len)?;
    copy(pool, place, len, scratch, start);
    Some(start)
}

// Stores the bytes of a token in front of what is written from `at` on.
pub fn put_token(pool: &[u8], token: TokenRecord, scratch: &mut [u8], at: usize) -> Option<usize>
    requires in_pool { InPool pool.now token }
    requires at_in_bounds { at ≤ length scratch.old }
    ensures { Stands result (bytes_in pool.now token ++ drop at scratch.old) scratch.new }
{
    put_before(pool, token.place as usize, token.len as usize, scratch, at)
}

// The token, and the separator behind it.
pub fn put_both(
    pool: &[u8],
    token: TokenRecord,
    separator: TokenRecord,
    scratch: &mut [u8],
    at: usize,
) -> Option<usize>
    requires in_pool { InPool pool.now token }
    requires in_pool_2 { InPool pool.now separator }
    requires at_in_bounds { at ≤ length scratch.old }
    ensures { Stands result
        (bytes_in pool.now token ++ (bytes_in pool.now separator ++ drop at scratch.old))
        scratch.new }
{
    let start = put_token(pool, separator, scratch, at)?;
    put_token(pool, token, scratch, start)
}

// Writes `total` bytes of the scratch, from `at` on, to the start of `out`. A place and a count, not a slice: `WritesOut` says them.
pub fn write(scratch: &[u8], at: usize, total: usize, out: &mut [u8]) -> Result<usize, Refusal>
    requires { at + total ≤ length scratch.now }
    ensures { WritesOut scratch.now at total out.old result out.new }
{
    if out.len() < total {
        return Err(Reason::OutputTooShort.at(total));
    }
    copy(scratch, at, total, out, 0);
    Ok(total)
}

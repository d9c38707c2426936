// The line of a token's record, written into a lent buffer from `at` on; answers the place behind it.
ghost use Rattle.std.specs.Prelude.{◌+◌, ◌*◌, ◌≤◌, length};
ghost use Rattle.listing.specs.Layers.{Room, Puts};
ghost use Rattle.listing.specs.Lines.{token_line, record_line};

use crate::digits::BLANK;

fn put_token(
    out: &mut [u8],
    at: usize,
    number: usize,
    tag: usize,
    place: usize,
    len: usize,
) -> usize
    requires { Room at (token_line number tag place len) out.old }
    ensures { Puts out.old at (token_line number tag place len) result out.new }
{
    let second = crate::digits::put_field(out, at, number, BLANK);
    let third = crate::digits::put_field(out, second, tag, BLANK);
    crate::digits::put_last_two(out, third, place, len)
}

// The line of record number `k`.
pub fn put_record(out: &mut [u8], at: usize, records: &[u8], k: usize) -> usize
    requires k_in_bounds { 10 * k + 10 ≤ length records.now }
    requires room { Room at (record_line records.now k) out.old }
    ensures { Puts out.old at (record_line records.now k) result out.new }
{
    let r = record::read_record(records, k);
    put_token(out, at, k, r.tag as usize, r.place as usize, r.len as usize)
}

// What is stored of a token: its record, a tag and where the token's bytes lie in a pool, and the mask of the rules that agree on it. For
// the player a record is ten bytes and a mask four; inside the server lists of tokens are slices of the struct, and masks of numbers.
#![tactic(auto)]

ghost use Rattle.std.specs.Prelude.{◌≡◌, ◌++◌, ◌+◌, ◌*◌, ◌≤◌, min, length, take, drop};
ghost use Rattle.big_endian.specs.Numbers.{four};
ghost use Rattle.record.specs.Records.{record_of, record_count};
ghost use Rattle.record.specs.Masks.{mask_count};
ghost use Rattle.record.specs.Tokens.{record_at};

#[derive(Clone, Copy)]
pub struct TokenRecord {
    pub tag: u16,
    pub place: u32,
    pub len: u32,
}

// Stores record number `k`: of the tag the low two bytes, of place and length the low four. The length goes first, since of a run of stores
// of single bytes the compiler joins those of the first number to one.
#[tactic(auto, using(crate::proofs::Records::record_stored))]
pub fn put_record(records: &mut [u8], k: usize, tag: u64, place: usize, len: usize)
    requires { 10 * k + 10 ≤ length records.old }
    ensures { records.new
        ≡ take (10 * k) records.old ++ record_of tag place len ++ drop (10 * k + 10) records.old }
{
    let at = 10 * k;
    big_endian::put_four(records, at + 6, len as u64);
    big_endian::put_four(records, at + 2, place as u64);
    big_endian::put_two(records, at, tag);
}

// Record number `k`.
#[tactic(auto, unfolding(crate::specs::Tokens::record_at))]
pub fn read_record(records: &[u8], k: usize) -> TokenRecord
    requires { 10 * k + 10 ≤ length records.now }
    ensures { result ≡ record_at records.now k }
{
    let at = 10 * k;
    TokenRecord {
        tag: big_endian::read_two(records, at),
        place: big_endian::read_four(records, at + 2),
        len: big_endian::read_four(records, at + 6),
    }
}

// Stores mask number `k`.
#[tactic(auto, using(crate::proofs::Masks::mask_stored))]
pub fn put_mask(masks: &mut [u8], k: usize, mask: u32)
    requires { 4 * k + 4 ≤ length masks.old }
    ensures { masks.new ≡ take (4 * k) masks.old ++ four mask ++ drop (4 * k + 4) masks.old }
{
    big_endian::put_four(masks, 4 * k, mask as u64);
}

// How many tokens there is room for, in records and in masks.
pub fn room(records: &[u8], masks: &[u8]) -> usize
    ensures { result ≡ min (record_count records.now) (mask_count masks.now) }
{
    (records.len() / 10).min(masks.len() / 4)
}

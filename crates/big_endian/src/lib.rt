// Numbers of two and of four bytes, high byte first, as books and records have them.
#![tactic(auto)]

ghost use Rattle.std.specs.Prelude.{◌≡◌, ◌+◌, ◌≤◌, length};
ghost use Rattle.std.proofs.lemmas.List.Edits.{sets};
ghost use Rattle.big_endian.specs.Numbers.{two_at, four_at, two, four};

// The two-byte number at `at`.
pub fn read_two(bytes: &[u8], at: usize) -> u16
    requires { at + 2 ≤ length bytes.now }
    ensures { result ≡ two_at bytes.now at }
{
    u16::from_be_bytes([bytes[at], bytes[at + 1]])
}

// The four-byte number at `at`.
pub fn read_four(bytes: &[u8], at: usize) -> u32
    requires { at + 4 ≤ length bytes.now }
    ensures { result ≡ four_at bytes.now at }
{
    u32::from_be_bytes([bytes[at], bytes[at + 1], bytes[at + 2], bytes[at + 3]])
}

// Stores the low two bytes of a number from `at` on.
pub fn put_two(bytes: &mut [u8], at: usize, n: u64)
    requires { at + 2 ≤ length bytes.old }
    ensures { bytes.new ≡ sets bytes.old at (two n) }
{
    bytes[at..at + 2].copy_from_slice(&((n % 65536) as u16).to_be_bytes());
}

// Stores the low four bytes of a number from `at` on.
pub fn put_four(bytes: &mut [u8], at: usize, n: u64)
    requires { at + 4 ≤ length bytes.old }
    ensures { bytes.new ≡ sets bytes.old at (four n) }
{
    bytes[at..at + 4].copy_from_slice(&((n % 4294967296) as u32).to_be_bytes());
}

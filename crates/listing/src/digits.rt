// Bytes and numbers in decimal, written into a lent buffer. Each `put` writes from `at` on and answers the place behind what it
// wrote. By hand, since `list` promises each byte, by `decimal`, of which the lines' definitions are made.
ghost use Rattle.std.specs.Prelude.{◌∷◌, []};
ghost use Rattle.listing.specs.Decimal.{decimal, field, last_two};
ghost use Rattle.listing.specs.Layers.{Room, Puts};

pub const BLANK: u8 = b' ';

const LINE_END: u8 = b'\n';

fn put_byte(out: &mut [u8], at: usize, byte: u8) -> usize
    requires { Room at (byte ∷ []) out.old }
    ensures { Puts out.old at (byte ∷ []) result out.new }
{
    out[at] = byte;
    at + 1
}

// A number in decimal.
fn put_decimal(out: &mut [u8], at: usize, n: usize) -> usize
    requires { Room at (decimal n) out.old }
    ensures { Puts out.old at (decimal n) result out.new }
{
    if n < 10 {
        return put_byte(out, at, 48 + n as u8);
    }
    let last = put_decimal(out, at, n / 10);
    put_byte(out, last, 48 + (n % 10) as u8)
}

// A number and the byte behind it.
pub fn put_field(out: &mut [u8], at: usize, n: usize, after: u8) -> usize
    requires { Room at (field n after) out.old }
    ensures { Puts out.old at (field n after) result out.new }
{
    let end = put_decimal(out, at, n);
    put_byte(out, end, after)
}

// The two numbers that end a line.
pub fn put_last_two(out: &mut [u8], at: usize, a: usize, b: usize) -> usize
    requires { Room at (last_two a b) out.old }
    ensures { Puts out.old at (last_two a b) result out.new }
{
    let next = put_field(out, at, a, BLANK);
    put_field(out, next, b, LINE_END)
}

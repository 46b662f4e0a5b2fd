// Numbers in bytes, the high byte first.
#![tactic(auto)]

ghost use Rattle.std.specs.Prelude.{◌≡◌, ◌+◌, ◌*◌, ◌%◌, ◌^◌, ◌≤◌, ◌<◌, length};
ghost use Rattle.method.specs.Bytes.{big_endian, in_bytes, twos_complement32, put_at};

// With the bound that a cast in place would leave to its caller.
pub fn wide(byte: u8) -> u64
    ensures { (result ≡ byte) × (result < 256) }
{
    u64::from(byte)
}

// The number of up to seven bytes.
pub fn number(bytes: &[u8]) -> u64
    requires { length bytes.now ≤ 7 }
    ensures { (result ≡ big_endian 0 bytes.now) × (result < 256 ^ length bytes.now) }
{
    let mut n = 0;
    for byte in bytes {
        n = n * 256 + wide(*byte);
    }
    n
}

pub fn two_bytes(high: u8, low: u8) -> u64
    ensures { (result ≡ high * 256 + low) × (result < 65_536) }
{
    u64::from(u16::from_be_bytes([high, low]))
}

// The lowest byte of a number.
pub fn byte(n: u64) -> u8
    ensures { result ≡ n % 256 }
{
    (n % 256) as u8
}

// Writes the lowest bytes of n, so many, into the buffer from `at` on. Not by `to_be_bytes`, which would ask for a width of at most 8.
pub fn put(n: u64, width: usize, at: usize, out: &mut [u8])
    requires { at + width ≤ length out.old }
    ensures { out.new ≡ put_at at (in_bytes width n) out.old }
{
    let mut rest = n;
    for left in (0..width).rev() {
        out[at + left] = byte(rest);
        rest /= 256;
    }
}

// In 32 bits. Two cases, because the definition leaves a number from 0 up unreduced.
pub fn twos_complement(z: i64) -> u64
    ensures { result ≡ twos_complement32 z }
{
    if z < 0 {
        4_294_967_295 - !z as u64 % 4_294_967_296
    } else {
        z as u64
    }
}

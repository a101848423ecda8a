// Numbers longer than a byte are little-endian. Each reader takes the part that begins with the number; bytes that are missing count 0.
ghost use Rattle.std.specs.Prelude.{◌≡◌, ◌^◌, ◌<◌, ◌≤◌, length};
ghost use Rattle.model.specs.Loading.{little};

// The number of so many bytes that are there.
fn number(part: &[u8], count: usize) -> u64
    requires few { count ≤ 8 }
    requires there { count ≤ length part.now }
    ensures value { result ≡ little count part.now }
    ensures below { result < 256 ^ count }
{
    let mut n = 0;
    for i in 0..count {
        n += u64::from(part[i]) << (8 * i);
    }
    n
}

// The number of N bytes that are there.
pub fn first<const N: usize>(part: &[u8]) -> u64
    requires few { N ≤ 8 }
    requires there { N ≤ length part.now }
    ensures value { result ≡ little N part.now }
    ensures below { result < 256 ^ N }
{
    number(part, N)
}

// The number of N bytes.
pub fn little<const N: usize>(part: &[u8]) -> u64
    requires few { N ≤ 8 }
    ensures value { result ≡ little N part.now }
    ensures below { result < 256 ^ N }
{
    number(part, N.min(part.len()))
}

pub fn little1(part: &[u8]) -> u64
    ensures value { result ≡ little 1 part.now }
    ensures below { result < 0x100 }
{
    little::<1>(part)
}

pub fn little2(part: &[u8]) -> u64
    ensures value { result ≡ little 2 part.now }
    ensures below { result < 0x10000 }
{
    little::<2>(part)
}

pub fn little4(part: &[u8]) -> u64
    ensures value { result ≡ little 4 part.now }
    ensures below { result < 0x100000000 }
{
    little::<4>(part)
}

pub fn little8(part: &[u8]) -> u64
    ensures { result ≡ little 8 part.now }
{
    little::<8>(part)
}

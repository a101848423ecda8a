// The table of lengths.
ghost use Rattle.code.specs.Lengths.{Lengths, ByRange};

// One length for each first byte, 0 where not kept; the bytes at the right are in hex.
const LENGTHS: [u8; 256] = [
    1, // 00
    0, 1, 1, 1, 1, 1, 1, 1, 1, 1, 1, 1, 1, 2, 0, 2, // 10
    2, 0, 2, 1, 1, 1, 1, 1, 1, 1, 1, 1, 1, 1, 2, 5, // 20
    9, 0, 9, 0, 1, 1, 0, 5, 0, 1, 2, 2, 2, 2, 2, 2, // 30
    2, 2, 2, 2, 2, 2, 2, 5, 5, 5, 5, 5, 5, 5, 5, 5, // 40
    5, 5, 5, 5, 0, 0, 0, 0, 0, 0, 0, 0, 0, 0, 0, 0, // 50
    0, 0, 0, 0, 0, 0, 0, 1, 1, 1, 1, 1, 1, 1, 1, 1, // 60
    1, 1, 1, 1, 1, 1, 0, 0, 1, 1, 0, 1, 0, 0, 5, 0, // 70
    0, 0, 5, 5, 5, 0, 0, 0, 0, 0, 5, 0, 5, 5, 0, 5, // 80
    0, 0, 0, 0, 0, 0, 0, 0, 0, 0, 0, 0, 0, 0, 0, 0, // 90
    0, 0, 0, 0, 0, 0, 0, 0, 0, 0, 0, 0, 0, 0, 0, 0, // A0
    0, 0, 0, 0, 0, 0, 0, 0, 0, 0, 0, 0, 0, 0, 0, 0, // B0
    0, 0, 0, 0, 0, 0, 0, 0, 0, 0, 0, 0, 0, 0, 0, 0, // C0
    0, 0, 0, 0, 0, 0, 0, 0, 0, 0, 0, 0, 0, 0, 0, 0, // D0
    0, 0, 0, 0, 0, 1, 0, 1, 0, 1, 0, 0, 0, 0, 0, 0, // E0
    0, 0, 0, 0, 0, 0, 0, 0, 0, 0, 0, 0, 0, 0, 0, 0, // F0
    0, 0, 0, 0, 0, 0, 0, 0, 0, 0, 0, 0, 0, 2, 0,
];

// The table, to be lent: an indexed constant array is written anew at each use.
pub fn table() -> [u8; 256]
    ensures lengths { Lengths result }
    ensures ranges { ByRange result }
{
    LENGTHS
}

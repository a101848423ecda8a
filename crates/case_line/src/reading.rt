// The parts of a case: two bytes of length and the tables, two bytes of length and the code, a byte with the number of arguments, eight bytes for each,
// four bytes of budget.
ghost use Rattle.std.specs.Prelude.{◌≡◌, ◌≤◌, length, take};
ghost use Rattle.case_line.specs.Case.{words as words_of};
ghost use Rattle.case_line.specs.Places.{Found};

use code::little::{little1, little2, little8};
use code::part::after;

// The bytes of a length.
pub const LENGTH: usize = 2;

// The bytes of the number of arguments.
const NUMBER: usize = 1;

// The bytes of an argument.
const WORD: usize = 8;

// The bytes of the budget.
const BUDGET: usize = 4;

// The most arguments that a byte can say.
pub const MOST_ARGUMENTS: usize = 255;

// Where the parts lie: the length of the tables, the offset and the length of the code, the offset and the number of arguments, the offset of the budget,
// and the end of the case.
#[derive(Clone, Copy)]
pub struct Places {
    pub tables: usize,
    pub code: usize,
    pub size: usize,
    pub arguments: usize,
    pub count: usize,
    pub budget: usize,
    pub end: usize,
}

// A byte that is missing counts 0.
pub fn locate(case: &[u8]) -> Places
    ensures { Found case.now result }
{
    let tables = little2(case) as usize;
    let second = LENGTH + tables;
    let size = little2(after(case, second)) as usize;
    let code = second + LENGTH;
    let third = code + size;
    let count = little1(after(case, third)) as usize;
    let arguments = third + NUMBER;
    let budget = arguments + WORD * count;
    Places {
        tables,
        code,
        size,
        arguments,
        count,
        budget,
        end: budget + BUDGET,
    }
}

// The first `count` numbers of eight bytes each, to the start of `words`.
pub fn fill(words: &mut [u64; MOST_ARGUMENTS], bytes: &[u8], count: usize)
    requires words_len { length words.old ≡ 255 }
    requires count_at_most { count ≤ 255 }
    ensures words_len { length words.new ≡ 255 }
    ensures take_is { take count words.new ≡ words_of count bytes.now }
{
    for i in 0..count {
        words[i] = little8(after(bytes, WORD * i));
    }
}

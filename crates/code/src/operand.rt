// Branch targets and tokens.
ghost use Rattle.std.specs.Prelude.{◌≡◌, ◌+◌, ◌≤◌};
ghost use Rattle.model.specs.Answer.{map_option};
ghost use Rattle.model.specs.Code.{target, row_of};
ghost use Rattle.code.specs.Operand.{held, values, maybe};

// A branch's distance is signed, and takes one byte or four.
#[derive(Clone, Copy)]
pub enum Distance {
    Byte,
    Word,
}

impl Distance {
    // The distances below count forward, those from it on back.
    fn half(self) -> u64
        ensures halves { result + result ≡ values self }
        ensures result_at_most { result ≤ 0x80000000 }
    {
        match self {
            Distance::Byte => 0x80,
            Distance::Word => 0x80000000,
        }
    }
}

// So many bytes further.
fn ahead(next: usize, d: usize) -> usize
    ensures { result ≡ held (next + d) }
{
    next.checked_add(d).unwrap_or(usize::MAX)
}

// The target of a branch, whose distance counts from the next instruction; none where that is before the code.
pub fn target(width: Distance, next: usize, d: u64) -> Option<usize>
    ensures { maybe result ≡ map_option held (target (values width) next d) }
{
    let half = width.half();
    if d < half {
        return Some(ahead(next, d as usize));
    }
    let full = half + half;
    if full <= d {
        return Some(ahead(next, (d - full) as usize));
    }
    next.checked_sub((full - d) as usize)
}

// The row of a token, if it is of a kind.
pub fn row_of(kind: u8, token: u64) -> Option<usize>
    ensures { maybe result ≡ row_of kind token }
{
    (token / 0x1000000 == kind as u64).then_some((token % 0x1000000) as usize)
}

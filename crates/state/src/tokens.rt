// The rows that tokens name.
ghost use Rattle.std.specs.Prelude.{◌<◌};
ghost use Rattle.state.specs.Meets.{Names};

// One row's worth of a token's top byte.
const ROWS: u64 = 0x1000000;

// The row that a token of a kind names, less one; a number past every row where the token is of another kind or has row 0.
pub fn row_named(token: u64, kind: u64) -> u64
    requires { (token < 0x100000000) × (kind < 0x100) }
    ensures { Names kind token result }
{
    std::num::wrapping_sub_u64(token, kind * ROWS + 1)
}

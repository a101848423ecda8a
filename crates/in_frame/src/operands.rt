// What a signed operand stands for.
ghost use Rattle.std.specs.Prelude.{◌≡◌, ◌+◌, ◌-◌, ◌<◌, ◌≤◌};
ghost use Rattle.model.specs.Answer.{or_else};
ghost use Rattle.model.specs.Code.{target};
ghost use Rattle.in_frame.specs.Tries.{Half, away};

// A number of a width with twice `half` values, in 64 bits with its sign.
pub fn away(half: u64, d: u64) -> u64
    requires { Half half × (d < half + half) }
    ensures { result ≡ away half d }
{
    std::num::wrapping_sub_u64(d ^ half, half)
}

// Where that number, counted from an offset, leads. Before the code there is nothing: the result is then larger than any code is long.
pub fn led(half: u64, next: usize, d: u64) -> usize
    requires { Half half × (d < half + half) × (next ≤ 0x10000) }
    ensures { result ≡ or_else (target (half + half) next d) (next + d + 0x10000000000000000 - (half + half)) }
{
    std::num::wrapping_add_u64(next as u64, away(half, d)) as usize
}

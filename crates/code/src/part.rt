// Parts of the lent code.
ghost use Rattle.std.specs.Prelude.{◌≡◌, drop};
ghost use Rattle.model.specs.Tables.{part_of};

// The part that begins at an offset and has a size, as far as the code goes.
#[tactic(auto, unfolding(model::specs::Tables::part_of))]
pub fn part(code: &[u8], offset: usize, size: usize) -> &[u8]
    ensures { result.now ≡ part_of code.now offset size }
{
    let rest = after(code, offset);
    &rest[..size.min(rest.len())]
}

// What follows an offset.
pub fn after(code: &[u8], offset: usize) -> &[u8]
    ensures { result.now ≡ drop offset code.now }
{
    &code[offset.min(code.len())..]
}

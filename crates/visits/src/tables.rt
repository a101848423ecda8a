// The tables by first byte.
ghost use Rattle.std.specs.Prelude.{◌≡◌};
ghost use Rattle.code.specs.Lengths.{Lengths};
ghost use Rattle.check_operands.specs.Groups.{groups as group_table};

// The length and the group of an instruction, by its first byte.
#[derive(Drop)]
pub struct Tables {
    pub lengths: [u8; 256],
    pub groups: [u8; 256],
}

impl Tables {
    pub fn new() -> Tables
        ensures lengths { Lengths result.lengths }
        ensures groups { result.groups ≡ group_table }
    {
        Tables {
            lengths: code::lengths::table(),
            groups: check_operands::group::table(),
        }
    }
}

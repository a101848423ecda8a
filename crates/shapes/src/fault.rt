// What the check finds wrong.
ghost use Rattle.std.specs.Prelude.{◌≡◌};
ghost use Rattle.shapes.specs.Faults.{number};

// Faults, by their numbers in document 01.
#[derive(Clone, Copy, PartialEq, Eq)]
pub enum FaultKind {
    Undecodable = 11,
    Operand = 12,
    TooFew = 13,
    TooMany = 14,
    WrongType = 15,
    OtherShape = 16,
    FallsPast = 17,
}

impl From<FaultKind> for u8 {
    ghost from_gives = { λ kind n. n ≡ number kind };

    fn from(kind: FaultKind) -> u8 {
        kind as u8
    }
}

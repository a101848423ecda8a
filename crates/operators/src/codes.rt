// The operators and relations of document 01, by name.

/// On two of one numeric type.
#[derive(Clone, Copy, PartialEq, Eq)]
pub enum Number {
    Add,
    Sub,
    Mul,
    Div,
}

/// On two int32 or two int64.
#[derive(Clone, Copy, PartialEq, Eq)]
pub enum Whole {
    Rem,
    DivUn,
    RemUn,
    And,
    Or,
    Xor,
    AddOvf,
    MulOvf,
    SubOvf,
}

/// An int32 or an int64 by an int32.
#[derive(Clone, Copy, PartialEq, Eq)]
pub enum Shift {
    Shl,
    Shr,
    ShrUn,
}

/// Comparisons, of ceq, cgt, clt and of the branches: bne.un is `Ne`.
#[derive(Clone, Copy, PartialEq, Eq)]
pub enum Relation {
    Eq,
    Ne,
    Lt,
    Le,
    Gt,
    Ge,
    LtUn,
    LeUn,
    GtUn,
    GeUn,
}

/// On two operands.
#[derive(Clone, Copy, PartialEq, Eq)]
pub enum Binary {
    Number(Number),
    Whole(Whole),
    Shift(Shift),
    Compare(Relation),
}

/// On one operand.
#[derive(Clone, Copy, PartialEq, Eq)]
pub enum Unary {
    Neg,
    Not,
    ConvI4,
    ConvI8,
    ConvR8,
}

/// When a branch is taken.
#[derive(Clone, Copy, PartialEq, Eq)]
pub enum Jump {
    Always,
    IfTrue,
    IfFalse,
    When(Relation),
}

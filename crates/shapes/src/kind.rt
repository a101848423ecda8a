// What operators see of types, and which they take.
ghost use Rattle.std.specs.Prelude.{◌≡◌};
ghost use Rattle.model.specs.Operators.{kind, unary_of};
ghost use Rattle.model.specs.Tables.{Ty, byte_of};
ghost use Rattle.code.specs.Operand.{maybe};
ghost use Rattle.shapes.specs.Kinds.{kind_is, is_integer, pairs, unary_by, given};

use super::numbers::{F, INT32, INT64};

// What an operator sees of a type, in the order of the types' bytes: the kind of a number's byte is that byte.
#[derive(Clone, Copy, PartialEq, Eq)]
pub enum Kind {
    Reference,
    Int32,
    Int64,
    F,
}

// The pairs of operands that operators take: two numbers, two integers, an integer and a shift's amount, two of one kind.
#[derive(Clone, Copy, PartialEq, Eq)]
pub enum Pair {
    Numbers,
    Integers,
    Shift,
    Alike,
}

// The operators of one operand.
#[derive(Clone, Copy, PartialEq, Eq)]
pub enum Unary {
    Neg,
    Not,
    ConvI4,
    ConvI8,
    ConvR8,
}

impl Kind {
    // What an operator sees of the type of a byte.
    pub fn of(t: u8) -> Kind
        ensures { (A : Ty) → byte_of A ≡ t → kind_is result ≡ kind A }
    {
        match t {
            INT32 => Kind::Int32,
            INT64 => Kind::Int64,
            F => Kind::F,
            _ => Kind::Reference,
        }
    }

    fn is_integer(self) -> bool
        ensures { result ≡ is_integer (kind_is self) }
    {
        matches!(self, Kind::Int32 | Kind::Int64)
    }
}

impl Pair {
    // Whether an operator takes a pair of types.
    pub fn takes(self, a: u8, b: u8) -> bool
        ensures { (A B : Ty) → byte_of A ≡ a → byte_of B ≡ b → result ≡ pairs self (kind A) (kind B) }
    {
        let x = Kind::of(a);
        let y = Kind::of(b);
        match self {
            Pair::Numbers => x == y && x != Kind::Reference,
            Pair::Integers => x == y && x.is_integer(),
            Pair::Shift => y == Kind::Int32 && x.is_integer(),
            Pair::Alike => x == y,
        }
    }
}

impl Unary {
    // The type that an operator gives, if it takes a type.
    pub fn gives(self, t: u8) -> Option<u8>
        ensures { (A : Ty) → byte_of A ≡ t → maybe result ≡ given (unary_of (unary_by self) (kind A)) }
    {
        let kind = Kind::of(t);
        match self {
            Unary::Neg => (kind != Kind::Reference).then_some(t),
            Unary::Not => kind.is_integer().then_some(t),
            Unary::ConvI4 => kind.is_integer().then_some(INT32),
            Unary::ConvI8 => kind.is_integer().then_some(INT64),
            Unary::ConvR8 => match kind {
                Kind::Int32 | Kind::F => Some(F),
                _ => None,
            },
        }
    }
}

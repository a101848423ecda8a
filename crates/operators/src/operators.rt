// What the operators give for one or two cells, by their kinds.
ghost use Rattle.std.specs.Prelude.{◌≡◌, ◌≤◌, ◌<◌};
ghost use Rattle.std.specs.Int.{w32};
ghost use Rattle.model.specs.Code.{number, whole, shift, compare};
ghost use Rattle.model.specs.Operators.{real, integer, whole_of, shifted};
ghost use Rattle.integers.specs.Cells.{low};
ghost use Rattle.integers.specs.Answers.{answer};
ghost use Rattle.operators.specs.declared.operators.Ends.TheVariants.{Integer};
ghost use Rattle.operators.specs.Gives.{number_by, whole_by, shift_by, relation_by, binary_by, unary_by, ends_with, given, of_kind, binary_gives, unary_gives};

use crate::codes::{Binary, Number, Relation, Shift, Unary, Whole};
use crate::comparisons::{
    BELOW_REALS, TWO_NARROW, TWO_REALS, TWO_WIDE, WIDE_AND_NARROW, both, related,
};
use integers::Integer;

// The kinds of cells but references.
const INT32: u8 = 1;

const INT64: u8 = 2;

const REAL: u8 = 3;

/// A cell of the stack.
#[derive(Clone, Copy)]
pub struct Cell {
    pub kind: u8,
    pub bits: u64,
}

/// Why an operator ends the run.
#[derive(Clone, Copy, PartialEq, Eq)]
pub enum Ends {
    Integer(integers::Ends),
    // it doesn't take these kinds
    WrongType,
}

impl From<integers::Ends> for Ends {
    ghost from_gives = { λ e r. r ≡ Integer e };

    fn from(e: integers::Ends) -> Ends {
        Ends::Integer(e)
    }
}

impl From<Ends> for u8 {
    ghost from_gives = { λ e n. n ≡ ends_with e };

    fn from(e: Ends) -> u8 {
        match e {
            Ends::Integer(e) => u8::from(e),
            Ends::WrongType => 45,
        }
    }
}

// The bits of an operator as a cell of a kind.
fn tagged(kind: u8, bits: Result<u64, integers::Ends>) -> Result<Cell, Ends>
    ensures { given result ≡ of_kind kind (answer bits) }
{
    Ok(Cell { kind, bits: bits? })
}

// ---- add, sub, mul, div

fn number_bits<I: Integer>(op: Number, a: u64, b: u64) -> Result<u64, integers::Ends>
    ensures { answer result ≡ integer I.width (number_by op) (low I.width a) (low I.width b) }
{
    match op {
        Number::Add => Ok(integers::add::<I>(a, b)),
        Number::Sub => Ok(integers::sub::<I>(a, b)),
        Number::Mul => Ok(integers::mul::<I>(a, b)),
        Number::Div => integers::div::<I>(a, b),
    }
}

fn number_real(op: Number, a: u64, b: u64) -> u64
    ensures { result ≡ real (number_by op) a b }
{
    match op {
        Number::Add => reals::fadd(a, b),
        Number::Sub => reals::fsub(a, b),
        Number::Mul => reals::fmul(a, b),
        Number::Div => reals::fdiv(a, b),
    }
}

fn number(op: Number, k: u8, l: u8, a: u64, b: u64) -> Result<Cell, Ends>
    ensures { k ≤ 3 → l ≤ 3 → given result ≡ binary_gives (number (number_by op)) k l a b }
{
    let pair = both(k, l);
    if pair == TWO_NARROW {
        return tagged(INT32, number_bits::<i32>(op, a, b));
    }
    if pair < BELOW_REALS {
        if pair == TWO_WIDE {
            return tagged(INT64, number_bits::<i64>(op, a, b));
        }
        return Err(Ends::WrongType);
    }
    if pair == TWO_REALS {
        return Ok(Cell {
            kind: REAL,
            bits: number_real(op, a, b),
        });
    }
    Err(Ends::WrongType)
}

// ---- rem, div.un, rem.un, and, or, xor, add.ovf, mul.ovf, sub.ovf

fn whole_bits<I: Integer>(op: Whole, a: u64, b: u64) -> Result<u64, integers::Ends>
    ensures { answer result ≡ whole_of I.width (whole_by op) (low I.width a) (low I.width b) }
{
    match op {
        Whole::Rem => integers::rem::<I>(a, b),
        Whole::DivUn => integers::div_un::<I>(a, b),
        Whole::RemUn => integers::rem_un::<I>(a, b),
        Whole::And => Ok(integers::bit_and::<I>(a, b)),
        Whole::Or => Ok(integers::bit_or::<I>(a, b)),
        Whole::Xor => Ok(integers::bit_xor::<I>(a, b)),
        Whole::AddOvf => integers::add_ovf::<I>(a, b),
        Whole::MulOvf => integers::mul_ovf::<I>(a, b),
        Whole::SubOvf => integers::sub_ovf::<I>(a, b),
    }
}

fn whole(op: Whole, k: u8, l: u8, a: u64, b: u64) -> Result<Cell, Ends>
    ensures { k ≤ 3 → l ≤ 3 → given result ≡ binary_gives (whole (whole_by op)) k l a b }
{
    let pair = both(k, l);
    if pair == TWO_NARROW {
        return tagged(INT32, whole_bits::<i32>(op, a, b));
    }
    if pair == TWO_WIDE {
        return tagged(INT64, whole_bits::<i64>(op, a, b));
    }
    Err(Ends::WrongType)
}

// ---- shl, shr, shr.un: by an int32

fn shift_bits<I: Integer>(op: Shift, a: u64, n: u64) -> u64
    ensures { result ≡ shifted I.width (shift_by op) (low I.width a) (low w32 n) }
{
    match op {
        Shift::Shl => integers::shl::<I>(a, n),
        Shift::Shr => integers::shr::<I>(a, n),
        Shift::ShrUn => integers::shr_un::<I>(a, n),
    }
}

fn shift(op: Shift, k: u8, l: u8, a: u64, n: u64) -> Result<Cell, Ends>
    ensures { k ≤ 3 → l ≤ 3 → given result ≡ binary_gives (shift (shift_by op)) k l a n }
{
    let pair = both(k, l);
    if pair == TWO_NARROW {
        return Ok(Cell {
            kind: INT32,
            bits: shift_bits::<i32>(op, a, n),
        });
    }
    if pair == WIDE_AND_NARROW {
        return Ok(Cell {
            kind: INT64,
            bits: shift_bits::<i64>(op, a, n),
        });
    }
    Err(Ends::WrongType)
}

// ---- ceq, cgt, clt and the like: 1 or 0

fn compare(relation: Relation, k: u8, l: u8, a: u64, b: u64) -> Result<Cell, Ends>
    ensures { k ≤ 3 → l ≤ 3 → given result ≡ binary_gives (compare (relation_by relation)) k l a b }
{
    match related(relation, both(k, l), a, b) {
        Some(holds) => Ok(Cell {
            kind: INT32,
            bits: u64::from(holds),
        }),
        None => Err(Ends::WrongType),
    }
}

// ---- Two operands

pub fn operated(op: Binary, k: u8, l: u8, a: u64, b: u64) -> Result<Cell, Ends>
    ensures { k ≤ 3 → l ≤ 3 → given result ≡ binary_gives (binary_by op) k l a b }
{
    match op {
        Binary::Number(op) => number(op, k, l, a, b),
        Binary::Whole(op) => whole(op, k, l, a, b),
        Binary::Shift(op) => shift(op, k, l, a, b),
        Binary::Compare(relation) => compare(relation, k, l, a, b),
    }
}

// ---- One operand

fn of_int32(op: Unary, a: u64) -> Result<Cell, Ends>
    ensures { given result ≡ unary_gives (unary_by op) 1 a }
{
    let (kind, bits) = match op {
        Unary::Neg => (INT32, integers::neg::<i32>(a)),
        Unary::Not => (INT32, integers::complement::<i32>(a)),
        Unary::ConvI4 => (INT32, integers::conv_i4(a)),
        Unary::ConvI8 => (INT64, integers::conv_i8(a)),
        Unary::ConvR8 => (REAL, reals::conv_r8(a)),
    };
    Ok(Cell { kind, bits })
}

fn of_int64(op: Unary, a: u64) -> Result<Cell, Ends>
    ensures { given result ≡ unary_gives (unary_by op) 2 a }
{
    let (kind, bits) = match op {
        Unary::Neg => (INT64, integers::neg::<i64>(a)),
        Unary::Not => (INT64, integers::complement::<i64>(a)),
        Unary::ConvI4 => (INT32, integers::conv_i4(a)),
        Unary::ConvI8 => (INT64, a),
        Unary::ConvR8 => return Err(Ends::WrongType),
    };
    Ok(Cell { kind, bits })
}

fn of_real(op: Unary, a: u64) -> Result<Cell, Ends>
    ensures { given result ≡ unary_gives (unary_by op) 3 a }
{
    let bits = match op {
        Unary::Neg => reals::fneg(a),
        Unary::ConvR8 => a,
        Unary::Not | Unary::ConvI4 | Unary::ConvI8 => return Err(Ends::WrongType),
    };
    Ok(Cell { kind: REAL, bits })
}

pub fn converted(op: Unary, k: u8, a: u64) -> Result<Cell, Ends>
    ensures { k ≤ 3 → given result ≡ unary_gives (unary_by op) k a }
{
    match k {
        INT32 => of_int32(op, a),
        INT64 => of_int64(op, a),
        REAL => of_real(op, a),
        _ => Err(Ends::WrongType),
    }
}

// The integer operators on cells of 64 bits, for the two types that cells hold: i64, and i32, of which only the low 32 bits of a cell are read.
// Results are low bits.
#![tactic(auto)]

ghost use Rattle.std.specs.Prelude.{◌≡◌, suc, ◌-◌, ◌%◌, ◌^◌, ℤ, neg_ℤ, FitsSigned};
ghost use Rattle.std.specs.Int.{Width, w32, w64};
ghost use Rattle.std.specs.Option.{SomeIff};
ghost use mir.Val.{bits, to_z, of_z};
ghost use Rattle.model.specs.Answer.{ok};
ghost use Rattle.model.specs.Code.{add, sub, mul, div, rem, div_un, rem_un, and, or, xor, add_ovf, mul_ovf, sub_ovf, shl, shr, shr_un, eq, lt, le, lt_un, le_un};
ghost use Rattle.model.specs.Operators.{wrap, holds, integer, whole_of, shifted, relates};
ghost use Rattle.integers.specs.Cells.{OfCell, low};
ghost use Rattle.integers.specs.Answers.{number_of, answer};
ghost use Rattle.integers.specs.Parts.{quotient_of, fitting};

/// Why an operator ends the run.
#[derive(Clone, Copy, PartialEq, Eq)]
pub enum Ends {
    DivisionByZero,
    // the smallest number by -1
    Arithmetic,
    Overflow,
}

impl From<Ends> for u8 {
    ghost from_gives = { λ e n. n ≡ number_of e };

    fn from(e: Ends) -> u8 {
        match e {
            Ends::DivisionByZero => 31,
            Ends::Arithmetic => 32,
            Ends::Overflow => 33,
        }
    }
}

// ---- Cells and numbers

/// The int32 of a cell.
pub fn narrow(a: u64) -> i32
    ensures { result ≡ to_z w32 (low w32 a) }
{
    (i32::low(a) as u32).cast_signed()
}

/// An integer type of cells.
pub trait Integer {
    ghost width: { Width };

    // The bits of a cell that count.
    fn low(a: u64) -> u64
        ensures { result ≡ low width a };

    // A cell read as a signed number.
    fn value(a: u64) -> i64
        ensures { result ≡ to_z width (low width a) };

    // Whether a number is one of the type's.
    fn holds(z: i64) -> bool
        ensures { result ≡ holds width z };

    // The bits of a shift's amount that count.
    fn amount(n: u64) -> u64
        ensures { result ≡ low w32 n % bits width };

    ghost of_cell: { OfCell width };
}

impl Integer for i32 {
    ghost width = { w32 };

    fn low(a: u64) -> u64 {
        a % 0x1_0000_0000
    }

    fn value(a: u64) -> i64 {
        i64::from(narrow(a))
    }

    #[tactic(auto, unfolding(model::specs::Operators::holds))]
    fn holds(z: i64) -> bool {
        i32::try_from(z).is_ok()
    }

    fn amount(n: u64) -> u64 {
        n % 32
    }

    ghost of_cell = { OfCell.narrow };
}

impl Integer for i64 {
    ghost width = { w64 };

    fn low(a: u64) -> u64 {
        a
    }

    fn value(a: u64) -> i64 {
        a.cast_signed()
    }

    #[tactic(auto, unfolding(model::specs::Operators::holds))]
    fn holds(_z: i64) -> bool {
        true
    }

    fn amount(n: u64) -> u64 {
        n % 64
    }

    ghost of_cell = { OfCell.wide };
}

// ---- add, sub, mul, neg: the result wraps

pub fn add<I: Integer>(a: u64, b: u64) -> u64
    ensures { integer I.width add (low I.width a) (low I.width b) ≡ ok result }
{
    I::low(a.wrapping_add(b))
}

pub fn sub<I: Integer>(a: u64, b: u64) -> u64
    ensures { integer I.width sub (low I.width a) (low I.width b) ≡ ok result }
{
    I::low(a.wrapping_sub(b))
}

pub fn mul<I: Integer>(a: u64, b: u64) -> u64
    ensures { integer I.width mul (low I.width a) (low I.width b) ≡ ok result }
{
    I::low(a.wrapping_mul(b))
}

pub fn neg<I: Integer>(a: u64) -> u64
    ensures { result ≡ wrap I.width (neg_ℤ (to_z I.width (low I.width a))) }
{
    I::low(a.wrapping_neg())
}

// ---- Division

// The quotient of two cells, toward zero.
fn quotient<I: Integer>(a: u64, b: u64) -> Result<i64, Ends>
    ensures { answer result ≡ quotient_of I.width (low I.width a) (low I.width b) }
{
    if I::low(b) == 0 {
        return Err(Ends::DivisionByZero);
    }
    match I::value(a).checked_div(I::value(b)) {
        Some(q) if I::holds(q) => Ok(q),
        _ => Err(Ends::Arithmetic),
    }
}

// Toward zero.
pub fn div<I: Integer>(a: u64, b: u64) -> Result<u64, Ends>
    ensures { answer result ≡ integer I.width div (low I.width a) (low I.width b) }
{
    let q = quotient::<I>(a, b)?;
    Ok(I::low(q.cast_unsigned()))
}

// With the sign of the dividend.
pub fn rem<I: Integer>(a: u64, b: u64) -> Result<u64, Ends>
    ensures { answer result ≡ whole_of I.width rem (low I.width a) (low I.width b) }
{
    quotient::<I>(a, b)?;
    Ok(I::low((I::value(a) % I::value(b)).cast_unsigned()))
}

pub fn div_un<I: Integer>(a: u64, b: u64) -> Result<u64, Ends>
    ensures { answer result ≡ whole_of I.width div_un (low I.width a) (low I.width b) }
{
    I::low(a).checked_div(I::low(b)).ok_or(Ends::DivisionByZero)
}

pub fn rem_un<I: Integer>(a: u64, b: u64) -> Result<u64, Ends>
    ensures { answer result ≡ whole_of I.width rem_un (low I.width a) (low I.width b) }
{
    I::low(a).checked_rem(I::low(b)).ok_or(Ends::DivisionByZero)
}

// ---- add.ovf, sub.ovf, mul.ovf: a signed result that doesn't fit ends the run

// The bits of a result that 64 bits hold, if the type holds it too.
fn fitting<I: Integer>(z: Option<i64>) -> Result<u64, Ends>
    ensures { (x : ℤ) → SomeIff z (FitsSigned w64 x) x → answer result ≡ fitting I.width x }
{
    match z {
        Some(x) if I::holds(x) => Ok(I::low(x.cast_unsigned())),
        _ => Err(Ends::Overflow),
    }
}

pub fn add_ovf<I: Integer>(a: u64, b: u64) -> Result<u64, Ends>
    ensures { answer result ≡ whole_of I.width add_ovf (low I.width a) (low I.width b) }
{
    fitting::<I>(I::value(a).checked_add(I::value(b)))
}

pub fn sub_ovf<I: Integer>(a: u64, b: u64) -> Result<u64, Ends>
    ensures { answer result ≡ whole_of I.width sub_ovf (low I.width a) (low I.width b) }
{
    fitting::<I>(I::value(a).checked_sub(I::value(b)))
}

pub fn mul_ovf<I: Integer>(a: u64, b: u64) -> Result<u64, Ends>
    ensures { answer result ≡ whole_of I.width mul_ovf (low I.width a) (low I.width b) }
{
    fitting::<I>(I::value(a).checked_mul(I::value(b)))
}

// ---- Bits and shifts

#[tactic(auto, using(std::proofs::lemmas::Nat::and_mod), unfolding(model::specs::Operators::whole_of))]
pub fn bit_and<I: Integer>(a: u64, b: u64) -> u64
    ensures { whole_of I.width and (low I.width a) (low I.width b) ≡ ok result }
{
    I::low(a & b)
}

#[tactic(auto, using(std::proofs::lemmas::Nat::or_mod), unfolding(model::specs::Operators::whole_of))]
pub fn bit_or<I: Integer>(a: u64, b: u64) -> u64
    ensures { whole_of I.width or (low I.width a) (low I.width b) ≡ ok result }
{
    I::low(a | b)
}

#[tactic(auto, using(std::proofs::lemmas::Nat::xor_mod), unfolding(model::specs::Operators::whole_of))]
pub fn bit_xor<I: Integer>(a: u64, b: u64) -> u64
    ensures { whole_of I.width xor (low I.width a) (low I.width b) ≡ ok result }
{
    I::low(a ^ b)
}

pub fn complement<I: Integer>(a: u64) -> u64
    ensures { result ≡ 2 ^ bits I.width - suc (low I.width a) }
{
    I::low(!a)
}

pub fn shl<I: Integer>(a: u64, n: u64) -> u64
    ensures { result ≡ shifted I.width shl (low I.width a) (low w32 n) }
{
    I::low(a << I::amount(n))
}

// Keeps the sign.
pub fn shr<I: Integer>(a: u64, n: u64) -> u64
    ensures { result ≡ shifted I.width shr (low I.width a) (low w32 n) }
{
    I::low((I::value(a) >> I::amount(n)).cast_unsigned())
}

pub fn shr_un<I: Integer>(a: u64, n: u64) -> u64
    ensures { result ≡ shifted I.width shr_un (low I.width a) (low w32 n) }
{
    I::low(a) >> I::amount(n)
}

// ---- Comparisons

#[tactic(auto, unfolding(model::specs::Operators::relates))]
pub fn equal<I: Integer>(a: u64, b: u64) -> bool
    ensures { result ≡ relates I.width eq (low I.width a) (low I.width b) }
{
    I::low(a) == I::low(b)
}

#[tactic(auto, using(crate::proofs::Reading::read), unfolding(model::specs::Operators::relates))]
pub fn less<I: Integer>(a: u64, b: u64) -> bool
    ensures { result ≡ relates I.width lt (low I.width a) (low I.width b) }
{
    I::value(a) < I::value(b)
}

#[tactic(auto, using(crate::proofs::Reading::read), unfolding(model::specs::Operators::relates))]
pub fn at_most<I: Integer>(a: u64, b: u64) -> bool
    ensures { result ≡ relates I.width le (low I.width a) (low I.width b) }
{
    I::value(a) <= I::value(b)
}

#[tactic(auto, unfolding(model::specs::Operators::relates))]
pub fn less_un<I: Integer>(a: u64, b: u64) -> bool
    ensures { result ≡ relates I.width lt_un (low I.width a) (low I.width b) }
{
    I::low(a) < I::low(b)
}

#[tactic(auto, unfolding(model::specs::Operators::relates))]
pub fn at_most_un<I: Integer>(a: u64, b: u64) -> bool
    ensures { result ≡ relates I.width le_un (low I.width a) (low I.width b) }
{
    I::low(a) <= I::low(b)
}

// ---- Conversions

pub fn conv_i8(a: u64) -> u64
    ensures { result ≡ of_z w64 (to_z w32 (low w32 a)) }
{
    i32::value(a).cast_unsigned()
}

pub fn conv_i4(a: u64) -> u64
    ensures { result ≡ low w32 a }
{
    i32::low(a)
}

// Whether an int32 holds the number of an int64.
pub fn admitted(a: u64) -> bool
    ensures { result ≡ holds w32 (to_z w64 a) }
{
    i32::holds(a.cast_signed())
}

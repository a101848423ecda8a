// The operators on F: IEEE 754 doubles in cells of 64 bits. A NaN is always stored as
// 7FF8000000000000.
#![tactic(auto)]

ghost use Rattle.std.specs.Prelude.{◌≡◌};
ghost use Rattle.std.specs.Float.Ieee as Ieee;
ghost use Rattle.std.specs.Float.{binary64};
ghost use Rattle.std.specs.Float.Ieee.{of_int, of_bits, to_bits};
ghost use Rattle.std.specs.Int.{w32};
ghost use Rattle.std.proofs.Common.{to_z};
ghost use Rattle.model.specs.Code.{add, sub, mul, div, eq, ne, lt, le, lt_un, le_un};
ghost use Rattle.model.specs.Operators.{double, stored, real, relates_f};
ghost use Rattle.integers.specs.Cells.{low};

use integers::narrow;

// The one NaN that is stored.
const NAN: u64 = 0x7ff8_0000_0000_0000;

// The bits of an infinity: those above them, but for the sign, are NaNs.
const INFINITE: u64 = 0x7ff0_0000_0000_0000;

// The double that a cell's bits stand for. Every NaN is one value.
#[tactic(auto, using(crate::proofs::Nan::no_nan_bits, crate::proofs::Nan::nan_bits), unfolding(model::specs::Operators::double))]
pub fn double(a: u64) -> f64
    ensures { result ≡ double a }
{
    if INFINITE < a % 0x8000_0000_0000_0000 {
        f64::NAN
    } else {
        f64::from_bits(a)
    }
}

// The bits of a double.
#[tactic(auto, using(crate::proofs::Nan::of_nan), unfolding(model::specs::Operators::stored))]
pub fn stored(x: f64) -> u64
    ensures { result ≡ stored x }
{
    if x.is_nan() { NAN } else { f64::to_bits(x) }
}

// The bits of a constant: those of a NaN become 7FF8000000000000, all others stay.
#[tactic(auto, using(crate::proofs::Nan::one_nan, crate::proofs::Nan::kept))]
pub fn stored_bits(n: u64) -> u64
    ensures { result ≡ to_bits binary64 (of_bits binary64 n) }
{
    if INFINITE < n % 0x8000_0000_0000_0000 {
        NAN
    } else {
        n
    }
}

// ---- add, sub, mul, div, neg: rounded once

#[tactic(auto, unfolding(model::specs::Operators::real))]
pub fn fadd(a: u64, b: u64) -> u64
    ensures { result ≡ real add a b }
{
    stored(double(a) + double(b))
}

#[tactic(auto, unfolding(model::specs::Operators::real))]
pub fn fsub(a: u64, b: u64) -> u64
    ensures { result ≡ real sub a b }
{
    stored(double(a) - double(b))
}

#[tactic(auto, unfolding(model::specs::Operators::real))]
pub fn fmul(a: u64, b: u64) -> u64
    ensures { result ≡ real mul a b }
{
    stored(double(a) * double(b))
}

#[tactic(auto, unfolding(model::specs::Operators::real))]
pub fn fdiv(a: u64, b: u64) -> u64
    ensures { result ≡ real div a b }
{
    stored(double(a) / double(b))
}

pub fn fneg(a: u64) -> u64
    ensures { result ≡ stored (Ieee.neg (double a)) }
{
    stored(-double(a))
}

// ---- Comparisons: with a NaN, `fne` and those that end in _un say yes, all others no

#[tactic(auto, unfolding(model::specs::Operators::relates_f))]
pub fn feq(a: u64, b: u64) -> bool
    ensures { result ≡ relates_f eq (double a) (double b) }
{
    double(a) == double(b)
}

#[tactic(auto, unfolding(model::specs::Operators::relates_f))]
pub fn fne(a: u64, b: u64) -> bool
    ensures { result ≡ relates_f ne (double a) (double b) }
{
    !(double(a) == double(b))
}

#[tactic(auto, unfolding(model::specs::Operators::relates_f))]
pub fn flt(a: u64, b: u64) -> bool
    ensures { result ≡ relates_f lt (double a) (double b) }
{
    double(a) < double(b)
}

#[tactic(auto, unfolding(model::specs::Operators::relates_f))]
pub fn fle(a: u64, b: u64) -> bool
    ensures { result ≡ relates_f le (double a) (double b) }
{
    double(a) <= double(b)
}

#[tactic(auto, unfolding(model::specs::Operators::relates_f))]
pub fn flt_un(a: u64, b: u64) -> bool
    ensures { result ≡ relates_f lt_un (double a) (double b) }
{
    !(double(b) <= double(a))
}

#[tactic(auto, unfolding(model::specs::Operators::relates_f))]
pub fn fle_un(a: u64, b: u64) -> bool
    ensures { result ≡ relates_f le_un (double a) (double b) }
{
    !(double(b) < double(a))
}

// ---- Conversion

// The double of an int32, which is exact.
pub fn conv_r8(a: u64) -> u64
    ensures { result ≡ stored (of_int binary64 (to_z w32 (low w32 a))) }
{
    stored(f64::from(narrow(a)))
}

// Comparisons of two cells.
ghost use Rattle.std.specs.Prelude.{◌≡◌, ℕ, ◌+◌, ◌*◌, ◌≤◌};
ghost use Rattle.model.specs.Operators.{relates, relates_f, double};
ghost use Rattle.integers.specs.Cells.{low};
ghost use Rattle.operators.specs.Gives.{relation_by, compared, says};

use crate::codes::Relation;
use integers::Integer;

#[tactic(auto, unfolding(model::specs::Operators::relates))]
fn related_bits<I: Integer>(relation: Relation, a: u64, b: u64) -> bool
    ensures { result ≡ relates I.width (relation_by relation) (low I.width a) (low I.width b) }
{
    match relation {
        Relation::Eq => integers::equal::<I>(a, b),
        Relation::Ne => !integers::equal::<I>(a, b),
        Relation::Lt => integers::less::<I>(a, b),
        Relation::Le => integers::at_most::<I>(a, b),
        Relation::Gt => integers::less::<I>(b, a),
        Relation::Ge => integers::at_most::<I>(b, a),
        Relation::LtUn => integers::less_un::<I>(a, b),
        Relation::LeUn => integers::at_most_un::<I>(a, b),
        Relation::GtUn => integers::less_un::<I>(b, a),
        Relation::GeUn => integers::at_most_un::<I>(b, a),
    }
}

#[tactic(auto, unfolding(model::specs::Operators::relates_f))]
fn related_real(relation: Relation, a: u64, b: u64) -> bool
    ensures { result ≡ relates_f (relation_by relation) (double a) (double b) }
{
    match relation {
        Relation::Eq => reals::feq(a, b),
        Relation::Ne => reals::fne(a, b),
        Relation::Lt => reals::flt(a, b),
        Relation::Le => reals::fle(a, b),
        Relation::Gt => reals::flt(b, a),
        Relation::Ge => reals::fle(b, a),
        Relation::LtUn => reals::flt_un(a, b),
        Relation::LeUn => reals::fle_un(a, b),
        Relation::GtUn => reals::flt_un(b, a),
        Relation::GeUn => reals::fle_un(b, a),
    }
}

// Pairs of kinds, as `both` has them.
const TWO_REFERENCES: u16 = 0;

pub const TWO_NARROW: u16 = 257;

pub const TWO_WIDE: u16 = 514;

pub const TWO_REALS: u16 = 771;

pub const WIDE_AND_NARROW: u16 = 258;

// Two F are above it, other pairs of one kind below. A multiple of 256 would be compiled to a test of the second kind alone, which is slower.
pub const BELOW_REALS: u16 = 600;

// Two of another kind than int32.
fn related_others(relation: Relation, pair: u16, a: u64, b: u64) -> Option<bool>
    ensures { (k l : ℕ) → k ≤ 3 → l ≤ 3 → pair ≡ k + l * 256 → (pair ≡ 257 → ⊥) → says result ≡ compared (relation_by relation) k l a b }
{
    if pair < BELOW_REALS {
        if pair == TWO_WIDE {
            return Some(related_bits::<i64>(relation, a, b));
        }
        if pair != TWO_REFERENCES {
            return None;
        }
        return match relation {
            Relation::Eq | Relation::Ne => Some(related_bits::<i64>(relation, a, b)),
            _ => None,
        };
    }
    if pair == TWO_REALS {
        return Some(related_real(relation, a, b));
    }
    None
}

// Two of one kind are compared, references for equality only; none where the kinds have no comparison. The kinds are one number, as `both` has
// them, and two int32 are asked for first, since most comparisons are of these.
pub fn related(relation: Relation, pair: u16, a: u64, b: u64) -> Option<bool>
    ensures { (k l : ℕ) → k ≤ 3 → l ≤ 3 → pair ≡ k + l * 256 → says result ≡ compared (relation_by relation) k l a b }
{
    if pair == TWO_NARROW {
        return Some(related_bits::<i32>(relation, a, b));
    }
    related_others(relation, pair, a, b)
}

// Two kinds as one number, so that a pair of them is one test.
pub fn both(k: u8, l: u8) -> u16
    ensures { result ≡ k + l * 256 }
{
    u16::from(k) + u16::from(l) * 256
}

// The set of a class: each class that it is or descends from, by its row and by the byte of its type.
ghost use Rattle.std.specs.Prelude.{◌≡◌, ℕ, ◌+◌, ◌≤◌, ◌<◌, List, length, eqb};
ghost use Rattle.model.specs.Tables.{descends as descends_of};
ghost use Rattle.ancestor.specs.Parents.{Parents};
ghost use Rattle.prepare.specs.Sets.{Has, Unasked, Upto};

use ancestor::descends;

// The byte of a class's type is its row and this.
const CLASS_BYTE: usize = 32;

// A set has numbers below this; a byte stands in it by its remainder.
const NUMBERS: usize = 64;

// The two numbers of a class in a set.
fn numbers_of(d: usize) -> u64
    requires { (0 < d) × (d ≤ 32) }
    ensures { (e : ℕ) → 0 < e → e ≤ 32 → Has result e (eqb d e) }
{
    let by_row: u64 = 1 << (d as u64);
    let by_type: u64 = 1 << (((CLASS_BYTE + d) % NUMBERS) as u64);
    by_row | by_type
}

// The lowest class that a class is asked for: past the last class there is only itself.
pub fn first_asked(classes: usize, c: usize) -> usize
    requires { 0 < c }
    ensures result_range { (0 < result) × (result ≤ c) }
    ensures unasked { ((ps : List ℕ) → classes ≡ length ps → Unasked ps c result) }
{
    if c <= classes { 1 } else { c }
}

// A set with class d, where class c is d or descends from it.
fn asked(parents: &[u8; 33], c: usize, d: usize, set: u64) -> u64
    requires { (0 < d) × (d ≤ 32) }
    ensures { (ps : List ℕ) → Parents ps parents.now → Upto ps c d set → Upto ps c (d + 1) result }
{
    if descends(parents, c, d) {
        return set | numbers_of(d);
    }
    set
}

// The set of class c, which is asked for the classes from `first` on to itself: a parent is a smaller row.
pub fn set_of(parents: &[u8; 33], c: usize, first: usize) -> u64
    requires { (c ≤ 32) × (0 < first) × (first ≤ c) }
    ensures { (ps : List ℕ) → Parents ps parents.now → Unasked ps c first → (e : ℕ) → 0 < e → e ≤ 32 → Has result e (descends_of ps c e) }
{
    let mut set: u64 = 0;
    for d in first..=c {
        set = asked(parents, c, d, set);
    }
    set
}

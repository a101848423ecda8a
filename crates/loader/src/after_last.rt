// After the last record: the missing entry, then an override with another return or other parameters.
ghost use Rattle.std.specs.Prelude.{◌≡◌, List, ℕ, ◌+◌, ◌*◌, ◌≤◌, ◌<◌, length, get_or, IfSome, MatchOption};
ghost use Rattle.std.proofs.Math.Option.{none, some};
ghost use Rattle.model.specs.Answer.{at as element_at, first_row};
ghost use Rattle.model.specs.Tables.{Ty, Method, method_at, eq_tys};
ghost use Rattle.model.specs.Loading.{differs as differs_of};
ghost use Rattle.loaded.specs.Holds.{byte_at};
ghost use Rattle.loader.specs.Stands.{MethodCells, Sound, Earlier};

use loaded::columns::{ARGUMENT_COUNT, LOCALS, METHOD, OVERRIDDEN, RETURN};

// Whether two methods' parameters, behind `this`, have the same types.
fn same_params(methods: &[u8; 4128], a: usize, b: usize) -> bool
    requires a_at_most { a ≤ 128 }
    requires b_at_most { b ≤ 128 }
    ensures { (l m : List Ty) → length l ≡ length m → length l ≤ 7
        → ((k : ℕ) → k < 7 → get_or methods.now (a * 32 + (1 + k)) 0 ≡ byte_at (element_at l k))
        → ((k : ℕ) → k < 7 → get_or methods.now (b * 32 + (1 + k)) 0 ≡ byte_at (element_at m k)) → result ≡ eq_tys l m }
{
    let first = &methods[a * METHOD + 1..a * METHOD + LOCALS];
    let second = &methods[b * METHOD + 1..b * METHOD + LOCALS];
    first == second
}

// Whether a method overrides one with another return or other parameters.
fn differs(methods: &[u8; 4128], row: usize) -> bool
    requires row_at_most { row ≤ 128 }
    requires earlier { Earlier methods.now }
    ensures { (code : List ℕ) (ms : List Method) → Sound code ms → MethodCells ms methods.now
        → result ≡ differs_of ms row (method_at ms row) }
{
    let base = row * METHOD;
    let v = methods[base + OVERRIDDEN] as usize;
    if v == 0 {
        return false;
    }
    let above = v * METHOD;
    if methods[base + RETURN] != methods[above + RETURN] {
        return true;
    }
    if methods[base + ARGUMENT_COUNT] != methods[above + ARGUMENT_COUNT] {
        return true;
    }
    !same_params(methods, row, v)
}

// The lowest of the first n methods that differs from what it overrides.
pub fn first_differing(methods: &[u8; 4128], n: usize) -> Option<usize>
    requires n_at_most { n ≤ 128 }
    requires earlier { Earlier methods.now }
    ensures result_at_most { IfSome result (λ row. (1 ≤ row) × (row ≤ n)) }
    ensures as_model { (code : List ℕ) (ms : List Method) → n ≡ length ms → Sound code ms → MethodCells ms methods.now
        → MatchOption result (first_row (differs_of ms) 1 ms ≡ none) (λ row. first_row (differs_of ms) 1 ms ≡ some row) }
{
    for row in 1..=n {
        if differs(methods, row) {
            return Some(row);
        }
    }
    None
}

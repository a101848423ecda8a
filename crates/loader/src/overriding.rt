// The rules between records on an overridden row, and roots.
ghost use Rattle.std.specs.Prelude.{◌≡◌, not, true, List, ◌≤◌, length};
ghost use Rattle.model.specs.Answer.{is_none};
ghost use Rattle.model.specs.Tables.{Method, of_root};
ghost use Rattle.model.specs.Loading.{Loading as LoadingOf};
ghost use Rattle.loader.specs.Rules.{OverrideRule};
ghost use Rattle.loader.specs.Stands.{ClassRows, MethodCells, root_in};

use crate::method::Body;
use crate::numbers;
use ancestor::descends;
use loaded::columns::{METHOD, OWNER, ROOT, SORT};

// Whether one of the first n methods is class c's and has the root q.
fn taken(methods: &[u8; 4128], n: usize, c: u8, q: u8) -> bool
    requires { n ≤ 128 }
    ensures { (ms : List Method) → n ≡ length ms → MethodCells ms methods.now → result ≡ not (is_none (of_root ms c q)) }
{
    for row in 1..=n {
        let base = row * METHOD;
        if methods[base + OWNER] == c && methods[base + ROOT] == q {
            return true;
        }
    }
    false
}

// An overridden row is 0, or an earlier virtual method of a proper ancestor whose root the class has no method of yet.
pub fn override_fits(b: Body, n: usize, parents: &[u8; 33], methods: &[u8; 4128]) -> bool
    requires { n ≤ 128 }
    ensures earlier { result ≡ true → b.overridden ≤ n }
    ensures override_rule { (L : LoadingOf) → n ≡ length L.methods → ClassRows L.parents parents.now
        → MethodCells L.methods methods.now → OverrideRule L b.owner b.sort b.overridden result }
{
    let v = b.overridden as usize;
    if v == 0 {
        return true;
    }
    if b.sort != numbers::VIRTUAL {
        return false;
    }
    if n < v {
        return false;
    }
    let base = v * METHOD;
    if methods[base + SORT] != numbers::VIRTUAL {
        return false;
    }
    let above = methods[base + OWNER];
    if above == b.owner {
        return false;
    }
    descends(parents, b.owner as usize, above as usize)
        && !taken(methods, n, b.owner, methods[base + ROOT])
}

// A method's root is itself, or the root of what it overrides.
pub fn root_of(methods: &[u8; 4128], row: usize, overridden: u8) -> u8
    requires row_at_most { row ≤ 128 }
    requires overridden_at_most { overridden ≤ 128 }
    ensures { result ≡ root_in methods.now row overridden }
{
    if overridden == 0 {
        return row as u8;
    }
    let v = overridden as usize;
    methods[v * METHOD + ROOT]
}

// The ancestor test, which loading and the check share.
#![tactic(auto)]

ghost use Rattle.std.specs.Prelude.{◌≡◌, List, ℕ};
ghost use Rattle.model.specs.Tables.{descends as descends_of};
ghost use Rattle.ancestor.specs.Parents.{Parents};

// Whether class row c is d or descends from it: from row to parent row, which always falls.
pub fn descends(parents: &[u8; 33], c: usize, d: usize) -> bool
    ensures { (ps : List ℕ) → Parents ps parents.now → result ≡ descends_of ps c d }
{
    if c == 0 {
        return false;
    }
    if c == d {
        return true;
    }
    if parents.len() <= c {
        return false;
    }
    let up = parents[c] as usize;
    if c <= up {
        return false;
    }
    descends(parents, up, d)
}

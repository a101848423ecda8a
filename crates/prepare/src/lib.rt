// Tables made once from a loaded module, for the steps: the method that callvirt takes, the kinds of variables, the sets of ancestors, and the types of cells.
#![tactic(auto)]

mod kinds; // the kind of each variable of a method
mod members; // fields in their cells, methods at their roots
mod rows; // a row for each class, which inherits from the row of its parent
mod sets; // the set of a class's ancestors

ghost use Rattle.std.specs.Prelude.{◌≡◌, ℕ, ◌≤◌, List, length, replicate};
ghost use Rattle.model.specs.Tables.{Module};
ghost use Rattle.loaded.specs.declared.Loaded.{Loaded as Lists};
ghost use Rattle.loaded.specs.Holds.{Holds};
ghost use Rattle.ancestor.specs.Parents.{Parents};
ghost use Rattle.state.specs.Order.{Fine, HoldsChosen, HoldsVariables, HoldsAncestors, HoldsMade, HoldsTypes};

use crate::kinds::row_kinds;
use crate::members::{CELLS, lay_fields, own_methods};
use crate::rows::inherit;
use crate::sets::{first_asked, set_of};
use loaded::columns::{CLASS_ROWS, METHOD_ROWS};
use loaded::{Counts, Loaded};

// What the steps read beside a loaded module.
#[derive(Drop)]
pub struct Prepared {
    // 32 for each method row: the kind of each variable
    pub variables: [u8; 4128],
    // by class row: the set of its ancestors
    pub ancestors: [u64; 33],
    // 129 for each class row: the method row that callvirt takes, by root
    pub chosen: [u8; 4257],
}

impl Prepared {
    // Tables in which all is 0.
    pub fn new() -> Prepared
        ensures no_kinds { result.variables ≡ replicate 4128 0 }
        ensures no_sets { result.ancestors ≡ replicate 33 0 }
        ensures nothing_chosen { result.chosen ≡ replicate 4257 0 }
    {
        Prepared {
            variables: [0; 4128],
            ancestors: [0; 33],
            chosen: [0; 4257],
        }
    }
}

// The tables of a loaded module, in place of whatever `made` held.
pub fn prepare(loaded: &Loaded, made: &mut Prepared)
    ensures { (M : Module) (code : List ℕ) → Fine M → Holds M code loaded.now
        → HoldsMade M loaded.now made.new.variables made.new.ancestors made.new.chosen }
{
    made.ancestors = [0; 33];
    made.chosen = [0; 4257];
    variables(loaded.counts, &loaded.methods, &mut made.variables);
    ancestors(loaded.counts, &loaded.parents, &mut made.ancestors);
    choices(
        loaded.counts,
        &loaded.parents,
        &loaded.methods,
        &mut made.chosen,
    );
}

// For each class the method of each root: its own, else what its parent has.
pub fn choices(counts: Counts, parents: &[u8; 33], methods: &[u8; 4128], chosen: &mut [u8; 4257])
    requires { chosen.old ≡ replicate 4257 0 }
    ensures { (M : Module) (code : List ℕ) (L : Lists) → Fine M → Holds M code L → L.counts ≡ counts → L.parents ≡ parents.now
        → L.methods ≡ methods.now → HoldsChosen M chosen.new }
{
    let rows = counts.methods % METHOD_ROWS;
    own_methods(methods, counts.methods, chosen);
    inherit(parents, counts.classes, chosen, METHOD_ROWS, rows + 1);
}

// The kind of each variable of each method.
pub fn variables(counts: Counts, methods: &[u8; 4128], variables: &mut [u8; 4128])
    requires { length variables.old ≡ 4128 }
    ensures { counts.methods ≤ 128 → HoldsVariables counts.methods methods.now variables.new }
{
    let last = counts.methods % METHOD_ROWS;
    for row in 1..=last {
        row_kinds(methods, row, variables);
    }
}

// The set of each class, by the ancestor test.
pub fn ancestors(counts: Counts, parents: &[u8; 33], sets: &mut [u64; 33])
    requires { sets.old ≡ replicate 33 0 }
    ensures { (ps : List ℕ) → Parents ps parents.now → counts.classes ≡ length ps → HoldsAncestors ps sets.new }
{
    for c in 1..CLASS_ROWS {
        let first = first_asked(counts.classes, c);
        sets[c] = set_of(parents, c, first);
    }
}

// The types of the cells of each class, those inherited first, and of the static cells.
pub fn types(
    counts: Counts,
    parents: &[u8; 33],
    fields: &[u8; 516],
    cell_types: &mut [u8; 264],
    static_types: &mut [u8; 64],
)
    requires cell_types_is { cell_types.old ≡ replicate 264 0 }
    requires static_types_is { static_types.old ≡ replicate 64 0 }
    ensures { (M : Module) (code : List ℕ) (L : Lists) → Fine M → Holds M code L → L.counts ≡ counts → L.parents ≡ parents.now
        → L.fields ≡ fields.now → HoldsTypes M cell_types.new static_types.new }
{
    lay_fields(fields, counts.fields, cell_types, static_types);
    inherit(parents, counts.classes, cell_types, CELLS, CELLS);
}

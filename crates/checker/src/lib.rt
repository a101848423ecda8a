// The check: methods by row, in each decoding, then operands and targets, then shapes by rising offset.
#![tactic(auto)]

ghost use Rattle.std.specs.Prelude.{◌≡◌, List, ℕ, ◌≤◌, length, Ok};
ghost use Rattle.std.proofs.Math.Option.{some};
ghost use Rattle.model.specs.Answer.{row as row_in};
ghost use Rattle.model.specs.Tables.{Method, Module};
ghost use Rattle.model.specs.Check.{check_method, check_module};
ghost use Rattle.code.specs.Lengths.{Lengths};
ghost use Rattle.loaded.specs.Holds.{Holds};
ghost use Rattle.check_operands.specs.Groups.{groups as group_table};
ghost use Rattle.visits.specs.Notes.{Ready};
ghost use Rattle.passes.specs.Fused.{Tells, Passing};
ghost use Rattle.checker.specs.Answers.{Answers, lent};
ghost use Rattle.checker.specs.Bounded.{Bounded};

pub mod tell; // the shape found before an instruction

use code::part::part;
use loaded::columns::{LENGTH, MAX_STACK, METHOD, OFFSET, PART};
use loaded::{Fault, Loaded};
use passes::pass::{FaultAt, method};
use visits::notes::Notes;
use visits::tables::Tables;

// The most methods of a module.
pub const MOST_METHODS: usize = 128;

// Every method by row, up to the first fault.
pub fn check(loaded: &Loaded, code: &[u8]) -> Result<(), Fault>
    ensures { (M : Module) (initialisers : List ℕ) → Bounded M → Holds M code.now (lent loaded.now initialisers) → Answers (check_module M) result }
{
    let tables = Tables::new();
    let mut notes = Notes::new();
    for row in 1..=loaded.counts.methods.min(MOST_METHODS) {
        if let Err(fault) = method_at(loaded, code, row, &tables, &mut notes) {
            return Err(fault.of_method(row));
        }
    }
    Ok(())
}

// The check of the method at a row.
fn method_at(
    loaded: &Loaded,
    code: &[u8],
    row: usize,
    tables: &Tables,
    notes: &mut Notes,
) -> Result<(), FaultAt>
    requires lengths { Lengths tables.now.lengths }
    requires groups { tables.now.groups ≡ group_table }
    requires row_at_most { row ≤ 128 }
    ensures { (M : Module) (m : Method) (initialisers : List ℕ) → Bounded M → Holds M code.now (lent loaded.now initialisers) →
        row_in M.methods row ≡ some m → Ready notes.old.found notes.old.pool → Tells result (check_method M m) ×
        (result ≡ Ok tt → Passing (check_method M m) (length m.code) notes.new.found notes.new.pool) }
{
    let offset = row * PART + OFFSET;
    let size = row * PART + LENGTH;
    let most = row * METHOD + MAX_STACK;
    let body = part(code, loaded.parts[offset], loaded.parts[size]);
    method(loaded, tables, notes, row, loaded.methods[most], body)
}

// The shape that the check found before an instruction.
ghost use Rattle.std.specs.Prelude.{◌≡◌, List, ℕ, ◌≤◌, ◌<◌, length, get_or};
ghost use Rattle.std.proofs.Math.Option.{none, some};
ghost use Rattle.model.specs.Answer.{ok};
ghost use Rattle.model.specs.Tables.{Module};
ghost use Rattle.model.specs.Check.{Shape, Shapes, check_module, found_at};
ghost use Rattle.loaded.specs.Holds.{Holds};
ghost use Rattle.shapes.specs.Pool.{Fine, Shows};
ghost use Rattle.visits.specs.Found.{Kept};
ghost use Rattle.checker.specs.Answers.{lent};
ghost use Rattle.checker.specs.Bounded.{Bounded};
ghost use Rattle.checker.specs.Told.{told};

use super::{MOST_METHODS, method_at};
use loaded::Loaded;
use loaded::columns::{LENGTH, PART};
use shapes::shape::Pool;
use visits::notes::Notes;
use visits::tables::Tables;
use visits::visit;

// The most types of a shape.
const MOST_STACK: usize = 32;

// The types before an instruction as bytes, the bottom first; every byte past them is 0.
#[derive(Drop)]
pub struct Found {
    pub depth: usize,
    pub types: [u8; 32],
}

// The types of a shape, from the top down.
fn types_of(pool: &Pool, s: usize) -> Option<Found>
    requires { s < 2048 }
    ensures { (S : Shape) → Fine pool.now → Shows pool.now S s → length S ≤ 32 → result ≡ told (some S) }
{
    let depth = pool.heights[s] as usize;
    if MOST_STACK < depth {
        return None;
    }
    let mut types = [0u8; 32];
    let mut x = s;
    for n in (0..depth).rev() {
        types[n] = pool.tops[x];
        x = pool.below(x);
    }
    Some(Found { depth, types })
}

// The shape found at an offset of a method of a size.
fn found_at(notes: &Notes, size: usize, offset: usize) -> Option<Found>
    ensures { (F : Shapes) → size ≤ 1024 → Fine notes.now.pool → Kept notes.now.pool size F notes.now.found →
        ((S : Shape) → get_or F offset none ≡ some S → length S ≤ 32) → result ≡ told (get_or F offset none) }
{
    if size <= offset {
        return None;
    }
    let s = visit::found_at(&notes.found, offset)?;
    types_of(&notes.pool, s)
}

// The shape found before the instruction at an offset of the method at a row, in a module that passes; none where no instruction starts there.
pub fn tell(loaded: &Loaded, code: &[u8], row: usize, offset: usize) -> Option<Found>
    ensures { (M : Module) (initialisers : List ℕ) (found : List Shapes) → Bounded M →
        Holds M code.now (lent loaded.now initialisers) → check_module M ≡ ok found → result ≡ told (found_at found row offset) }
{
    if row < 1 || loaded.counts.methods.min(MOST_METHODS) < row {
        return None;
    }
    let tables = Tables::new();
    let mut notes = Notes::new();
    match method_at(loaded, code, row, &tables, &mut notes) {
        Ok(()) => found_at(&notes, loaded.parts[row * PART + LENGTH], offset),
        Err(_) => None,
    }
}

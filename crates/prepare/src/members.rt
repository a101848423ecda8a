// What each class has itself.
ghost use Rattle.std.specs.Prelude.{◌≡◌, ℕ, List, length, replicate};
ghost use Rattle.model.specs.Tables.{Field, Method};
ghost use Rattle.prepare.specs.Told.{FieldsTold, LaidTo, MethodsTold, OwnFrom};

use loaded::columns::{
    CLASS_ROWS, FIELD, FIELD_OWNER, FIELD_ROWS, METHOD, METHOD_ROWS, OWNER, ROOT, SLOT, STATIC,
    TYPE,
};

// How many cells a class has at most.
pub const CELLS: usize = 8;

// How many static cells there are at most.
const STATICS: usize = 64;

// The type of each field is stored at its slot: a static field's among the static cells, any other's in the row of its class.
pub fn lay_fields(fields: &[u8; 516], count: usize, cells: &mut [u8; 264], statics: &mut [u8; 64])
    requires cells_is { cells.old ≡ replicate 264 0 }
    requires statics_is { statics.old ≡ replicate 64 0 }
    ensures cells_len { length cells.new ≡ 264 }
    ensures laid_to { ((ps : List ℕ) (fs : List Field) → FieldsTold ps fs fields.now → count ≡ length fs
        → LaidTo ps fs count cells.new statics.new) }
{
    for row in 1..=count % FIELD_ROWS {
        let at = row * FIELD;
        let slot = fields[at + SLOT] as usize % STATICS;
        if fields[at + STATIC] == 0 {
            let class = fields[at + FIELD_OWNER] as usize % CLASS_ROWS;
            cells[class * CELLS + slot % CELLS] = fields[at + TYPE];
        } else {
            statics[slot] = fields[at + TYPE];
        }
    }
}

// The row of each method is stored at its class and root, from the last method down, so that the lowest stays.
pub fn own_methods(methods: &[u8; 4128], count: usize, chosen: &mut [u8; 4257])
    requires { chosen.old ≡ replicate 4257 0 }
    ensures chosen_len { length chosen.new ≡ 4257 }
    ensures own_from { ((ms : List Method) → MethodsTold ms methods.now → count ≡ length ms → OwnFrom ms 0 chosen.new) }
{
    for r in (1..=count % METHOD_ROWS).rev() {
        let at = r * METHOD;
        let class = methods[at + OWNER] as usize % CLASS_ROWS;
        let root = methods[at + ROOT] as usize % METHOD_ROWS;
        chosen[class * METHOD_ROWS + root] = r as u8;
    }
}

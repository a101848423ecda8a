// The check of a method: decoding, then operands and shapes by rising offset.
ghost use Rattle.std.specs.Prelude.{◌≡◌, List, ℕ, ◌≤◌, ◌<◌, length, get_or, Ok};
ghost use Rattle.std.proofs.Math.Option.{some};
ghost use Rattle.model.specs.Answer.{ok};
ghost use Rattle.model.specs.Tables.{Method, Module};
ghost use Rattle.model.specs.Code.{Ins, decode};
ghost use Rattle.model.specs.Check.{Site, decode_from, find_operands, check_method};
ghost use Rattle.code.specs.Insn.{ins_of};
ghost use Rattle.code.specs.Lengths.{Lengths};
ghost use Rattle.shapes.specs.Pool.{pool, Fine};
ghost use Rattle.check_operands.specs.Groups.{groups as group_table};
ghost use Rattle.check_operands.specs.Held.{Held};
ghost use Rattle.shapes.specs.Faults.{number};
ghost use Rattle.visits.specs.Found.{Starts, Kept};
ghost use Rattle.visits.specs.Notes.{Ready};
ghost use Rattle.passes.specs.Fused.{onward, Tells, Late, Cleared, Scanned, Rest, Reading, Passing, nothing};

use code::decode::{known, size_at};
use code::insn::Insn;
use loaded::{Fault, Loaded};
use shapes::fault::FaultKind;
use shapes::shape::FIRST;
use visits::instruction::{refused, visit};
use visits::notes::{Body, Notes};
use visits::tables::Tables;

// The longest code of a method.
pub const MOST_CODE: usize = 1024;

// What is wrong with a method, and at which offset.
#[derive(Clone, Copy)]
pub struct FaultAt {
    pub kind: FaultKind,
    pub offset: usize,
}

impl FaultAt {
    // The fault in the method at a row.
    pub fn of_method(self, row: usize) -> Fault
        ensures { result ≡ record { number = number self.kind; method = row; offset = self.offset } }
    {
        Fault {
            number: u8::from(self.kind),
            method: row,
            offset: self.offset,
        }
    }
}

// No instruction starts, and no shape is found, at the first n offsets.
fn clear(notes: &mut Notes, n: usize)
    requires { n ≤ 1024 }
    ensures cleared { Cleared n notes.old.starts notes.new.starts }
    ensures found_cleared { Cleared n notes.old.found notes.new.found }
    ensures made { notes.new.pool ≡ pool notes.old.pool.tops notes.old.pool.belows notes.old.pool.heights 2 }
{
    notes.starts[..n].fill(0);
    notes.found[..n].fill(0);
    notes.pool.made = FIRST;
}

// Decodes from offset 0, by the table of lengths, and keeps the length of each instruction where it starts.
fn scan(lengths: &[u8; 256], code: &[u8], starts: &mut [u8; 1024]) -> Result<(), FaultAt>
    requires lengths { Lengths lengths.now }
    requires length_at_most { length code.now ≤ 1024 }
    requires starts_len { length starts.old ≡ 1024 }
    requires as_model { ((o : ℕ) → o < length code.now →
        get_or starts.old o 0 ≡ 0) }
    ensures { Scanned code.now result starts.new (decode_from (length code.now) code.now 0) }
{
    let mut at = 0;
    // Stays: a step is as long as its instruction, which no range says.
    while at < code.len() {
        let size = size_at(lengths, code, at);
        if size == 0 {
            return Err(FaultAt {
                kind: FaultKind::Undecodable,
                offset: at,
            });
        }
        starts[at] = size as u8;
        at += size;
    }
    Ok(())
}

// The instruction at an offset, by the length that is kept there.
fn read_at(code: &[u8], starts: &[u8; 1024], at: usize) -> Insn
    requires at_inside { at < length code.now }
    requires length_at_most { length code.now ≤ 1024 }
    requires reading { Reading code.now starts.now at }
    ensures decode_is { decode code.now at ≡ some (record { ins = ins_of result; next = result.next }) }
    ensures onward { at < result.next }
    ensures reading { Reading code.now starts.now result.next }
{
    known(code, at, starts[at] as usize)
}

// An operand fault at or after an offset comes before a shape's fault.
fn late(
    loaded: &Loaded,
    tables: &Tables,
    row: usize,
    starts: &[u8; 1024],
    code: &[u8],
    from: usize,
    fault: FaultAt,
) -> FaultAt
    requires row_below { row < 129 }
    requires length_at_most { length code.now ≤ 1024 }
    requires reading { Reading code.now starts.now from }
    ensures { (M : Module) (m : Method) (all l : List (Site Ins)) (max : ℕ) (parents : List ℕ) → tables.now.groups ≡ group_table →
        Held M m loaded.now.counts row max parents loaded.now.fields loaded.now.methods → m.code ≡ code.now →
        Starts all (length code.now) starts.now → Rest code.now from l → Late result fault (find_operands M m all l) }
{
    let mut at = from;
    // Stays: a step is as long as its instruction, which no range says.
    while at < code.len() {
        let i = read_at(code, starts, at);
        if refused(loaded, tables, row, starts, code.len(), i) {
            return FaultAt {
                kind: FaultKind::Operand,
                offset: at,
            };
        }
        at = i.next;
    }
    fault
}

// Operands and shapes, by rising offset.
fn pass(
    loaded: &Loaded,
    tables: &Tables,
    notes: &mut Notes,
    row: usize,
    max: u8,
    code: &[u8],
) -> Result<(), FaultAt>
    requires row_below { row < 129 }
    requires length_at_most { length code.now ≤ 1024 }
    requires reading { Reading code.now notes.old.starts 0 }
    requires made { notes.old.pool.made ≡ 2 }
    ensures { (M : Module) (m : Method) (all : List (Site Ins)) → tables.now.groups ≡ group_table →
        Held M m loaded.now.counts row max loaded.now.parents loaded.now.fields loaded.now.methods →
        m.code ≡ code.now → Starts all (length code.now) notes.old.starts → decode_from (length code.now) code.now 0 ≡ ok all →
        Fine notes.old.pool → Kept notes.old.pool (length code.now) (nothing (length code.now)) notes.old.found →
        Tells result (onward M m all all (nothing (length code.now))) ×
        (result ≡ Ok tt → Passing (onward M m all all (nothing (length code.now))) (length code.now) notes.new.found notes.new.pool) }
{
    let size = code.len();
    let body = Body { row, max, size };
    let mut at = 0;
    // Stays: a step is as long as its instruction, which no range says.
    while at < size {
        let i = read_at(code, &notes.starts, at);
        if let Err(kind) = visit(loaded, tables, body, notes, at, i) {
            let fault = FaultAt { kind, offset: at };
            match kind {
                FaultKind::Operand => return Err(fault),
                _ => return Err(late(loaded, tables, row, &notes.starts, code, i.next, fault)),
            }
        }
        at = i.next;
    }
    Ok(())
}

// One method.
pub fn method(
    loaded: &Loaded,
    tables: &Tables,
    notes: &mut Notes,
    row: usize,
    max: u8,
    code: &[u8],
) -> Result<(), FaultAt>
    requires lengths { Lengths tables.now.lengths }
    requires row_below { row < 129 }
    ensures { (M : Module) (m : Method) → tables.now.groups ≡ group_table →
        Held M m loaded.now.counts row max loaded.now.parents loaded.now.fields loaded.now.methods → m.code ≡ code.now →
        length code.now ≤ 1024 → Ready notes.old.found notes.old.pool →
        Tells result (check_method M m) ×
        (result ≡ Ok tt → Passing (check_method M m) (length code.now) notes.new.found notes.new.pool) }
{
    if MOST_CODE < code.len() {
        return Ok(());
    }
    clear(notes, code.len());
    scan(&tables.lengths, code, &mut notes.starts)?;
    pass(loaded, tables, notes, row, max, code)
}

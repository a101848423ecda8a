// A field record: its owner, instance or static, its type; and the cell that the field gets.
ghost use Rattle.std.specs.Prelude.{◌≡◌, List, ℕ, ◌*◌, ◌≤◌, length, eqb};
ghost use Rattle.model.specs.Answer.{pick, those};
ghost use Rattle.model.specs.Tables.{Field, is_static_field, layout};
ghost use Rattle.model.specs.Loading.{Loading as LoadingOf, field_record};
ghost use Rattle.loader.specs.Stands.{ClassRows, FieldRows, stored, field_cells, Stands, Leads, Fine, Small};
ghost use Rattle.loader.specs.Kinds.{last_byte};
ghost use Rattle.loader.specs.Allowed.{slot_room, field_allowed};

use crate::kind::Kind;
use crate::notes::Notes;
use crate::numbers;
use crate::ranges::{is_row, type_fits};
use crate::refusal::Refusal;
use loaded::columns::{FIELD, FIELD_OWNER, SLOT, STATIC, TYPE};
use loaded::{Counts, Loaded};

// How many instance fields a class has with those inherited; `own` has each class's own.
fn held(parents: &[u8; 33], own: &[u8; 33], c: usize) -> usize
    ensures result_at_most { result ≤ 255 * c }
    ensures as_model { (ps : List ℕ) (fs : List Field) (fields : List ℕ) → ClassRows ps parents.now
        → FieldRows ps fs own.now fields → result ≡ length (layout ps fs c) }
{
    if c == 0 {
        return 0;
    }
    if numbers::MOST_CLASSES < c {
        return 0;
    }
    let up = parents[c] as usize;
    if c <= up {
        return 0;
    }
    held(parents, own, up) + own[c] as usize
}

// The cell of the next field: among the static fields, or among its class's.
fn next_slot(loaded: &Loaded, notes: &Notes, o: u8, flag: u8) -> usize
    ensures { (code : List ℕ) (L : LoadingOf) → Stands code L loaded.now notes.now
        → result ≡ pick (eqb flag 1) (length (those is_static_field L.fields)) (length (layout L.parents L.fields o)) }
{
    if flag == 1 {
        return loaded.counts.statics;
    }
    held(&loaded.parents, &notes.own, o as usize)
}

// Room for one more field: fields, static ones, instance ones of the class with those inherited.
fn field_room(fields: usize, flag: u8, slot: usize) -> bool
    ensures { result ≡ slot_room fields flag slot }
{
    if numbers::MOST_FIELDS <= fields {
        return false;
    }
    if flag == 1 {
        return slot < numbers::MOST_STATICS;
    }
    slot < numbers::MOST_INSTANCE
}

// Whether a field record is taken; `before` is the owner of the field before it.
fn field_allowed(
    last: Option<Kind>,
    counts: Counts,
    before: u8,
    o: u8,
    flag: u8,
    t: u8,
    slot: usize,
) -> Result<(), Refusal>
    ensures { result ≡ field_allowed (last_byte last) before counts.classes counts.fields o flag t slot }
{
    if !Kind::Field.follows(last) {
        return Err(Refusal::Order);
    }
    if o < before {
        return Err(Refusal::Order);
    }
    if !is_row(counts.classes, o) {
        return Err(Refusal::Range);
    }
    if 1 < flag {
        return Err(Refusal::Range);
    }
    if !type_fits(counts.classes, t) {
        return Err(Refusal::Range);
    }
    if !field_room(counts.fields, flag, slot) {
        return Err(Refusal::TooMany);
    }
    Ok(())
}

// A field's row.
fn fill_field(fields: &mut [u8; 516], row: usize, o: u8, flag: u8, t: u8, slot: u8)
    requires { row ≤ 128 }
    ensures { fields.new ≡ stored 4 row fields.old (field_cells o flag t slot) }
{
    let base = row * FIELD;
    fields[base + FIELD_OWNER] = o;
    fields[base + STATIC] = flag;
    fields[base + TYPE] = t;
    fields[base + SLOT] = slot;
}

pub fn field_record(
    loaded: &mut Loaded,
    notes: &mut Notes,
    o: u8,
    flag: u8,
    t: u8,
) -> Result<(), Refusal>
    requires fine { Fine loaded.old.counts }
    requires small { Small notes.old.own }
    ensures { (code : List ℕ) (L : LoadingOf) → Stands code L loaded.old notes.old
        → Leads code (field_record L o flag t) result loaded.new notes.new }
{
    let n = loaded.counts.fields;
    let before = loaded.fields[n * FIELD + FIELD_OWNER];
    let slot = next_slot(loaded, notes, o, flag);
    field_allowed(notes.last, loaded.counts, before, o, flag, t, slot)?;
    let row = n + 1;
    fill_field(&mut loaded.fields, row, o, flag, t, slot as u8);
    let class = o as usize;
    notes.own[class] = notes.own[class] + (1 - flag);
    loaded.counts.fields = row;
    loaded.counts.statics = loaded.counts.statics + flag as usize;
    notes.last = Some(Kind::Field);
    Ok(())
}

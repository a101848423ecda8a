// Fields of objects and static fields. Where a class has to start first, nothing changes and its initialiser is named.
ghost use Rattle.std.specs.Prelude.{◌≡◌, ◌+◌, ◌≤◌, ◌<◌, length, get_or};
ghost use Rattle.loaded.specs.Holds.{field_cell};
ghost use Rattle.state.specs.View.{Work};
ghost use Rattle.state.specs.Work.{Tables, ldfld_row, stfld_row, ldsfld_row, stsfld_row, acts_w};
ghost use Rattle.state.specs.Meets.{Placed};
ghost use Rattle.state.specs.Steps.{Own, ComesTo};
ghost use Rattle.fields.specs.Members.{on_member, Reaches, LendsFields};

use crate::named::field_named;
use crate::starting::first_due;
use loaded::columns::{FIELD, FIELD_OWNER, SLOT, TYPE};
use state::ending::{Ending, ends};
use state::fit::{fits, kind_of, refers, wide};
use state::{Stay, Step};

// How many cells an object has, and how many objects there may be.
const OBJECT: usize = 8;

const OBJECTS: u64 = 256;

// The instruction is 5 bytes long.
pub const SIZE: usize = 5;

// The field of the row `r` in place of the object on top.
fn ldfld(
    y: Stay,
    at: usize,
    sp: usize,
    cells: &mut [u64; 2048],
    kinds: &mut [u8; 2048],
    marks: &mut [u8; 33],
    classes: &[u8; 256],
    heap: &[u64; 2048],
    fields: &[u8; 516],
    initialisers: &[u8; 33],
    ancestors: &[u64; 33],
    r: usize,
) -> Step
    requires reaches { Reaches y sp at r fields.now initialisers.now }
    requires field_cell_is { field_cell fields.now r 1 ≡ 0 }
    requires placed { Placed classes.now }
    ensures own { Own y sp result }
    ensures meets { ((c : Work) →
        let before = on_member c at sp cells.old kinds.old marks.old classes.now heap.now
        c.statics in
        ComesTo result (on_member c at sp cells.new kinds.new marks.new
        classes.now heap.now c.statics) before (ldfld_row fields.now initialisers.now ancestors.now y before r (at + 5))) }
{
    if sp <= y.floor {
        return ends(Ending::TooFew);
    }
    if kinds[sp - 1] != 0 {
        return ends(Ending::WrongType);
    }
    let object = cells[sp - 1];
    let owner = fields[r * FIELD + FIELD_OWNER];
    if !refers(classes, ancestors, object, owner) {
        return ends(Ending::WrongType);
    }
    let class = wide(owner);
    if let Some(first) = first_due(marks, initialisers, class) {
        return Step::Start { first: first };
    }
    if object == 0 {
        return ends(Ending::NullReference);
    }
    marks[class] = 1;
    kinds[sp - 1] = kind_of(fields[r * FIELD + TYPE]);
    let place = ((object - 1) % OBJECTS) as usize;
    cells[sp - 1] = heap[place * OBJECT + wide(fields[r * FIELD + SLOT])];
    Step::On {
        at: at + SIZE,
        sp: sp,
    }
}

// The value on top into the field of the row `r` of the object below it.
fn stfld(
    y: Stay,
    at: usize,
    sp: usize,
    cells: &[u64; 2048],
    kinds: &[u8; 2048],
    marks: &mut [u8; 33],
    classes: &[u8; 256],
    heap: &mut [u64; 2048],
    fields: &[u8; 516],
    initialisers: &[u8; 33],
    ancestors: &[u64; 33],
    r: usize,
) -> Step
    requires reaches { Reaches y sp at r fields.now initialisers.now }
    requires field_cell_is { field_cell fields.now r 1 ≡ 0 }
    requires placed { Placed classes.now }
    ensures own { Own y sp result }
    ensures meets { ((c : Work) →
        let before = on_member c at sp cells.now kinds.now marks.old classes.now heap.old
        c.statics in
        ComesTo result (on_member c at sp cells.now kinds.now marks.new
        classes.now heap.new c.statics) before (stfld_row fields.now initialisers.now ancestors.now y before r (at + 5))) }
{
    if sp < y.floor + 2 {
        return ends(Ending::TooFew);
    }
    if kinds[sp - 2] != 0 {
        return ends(Ending::WrongType);
    }
    let object = cells[sp - 2];
    let owner = fields[r * FIELD + FIELD_OWNER];
    if !refers(classes, ancestors, object, owner) {
        return ends(Ending::WrongType);
    }
    let value = cells[sp - 1];
    if !fits(
        classes,
        ancestors,
        kinds[sp - 1],
        value,
        fields[r * FIELD + TYPE],
    ) {
        return ends(Ending::WrongType);
    }
    let class = wide(owner);
    if let Some(first) = first_due(marks, initialisers, class) {
        return Step::Start { first: first };
    }
    if object == 0 {
        return ends(Ending::NullReference);
    }
    marks[class] = 1;
    let place = ((object - 1) % OBJECTS) as usize;
    heap[place * OBJECT + wide(fields[r * FIELD + SLOT])] = value;
    Step::On {
        at: at + SIZE,
        sp: sp - 2,
    }
}

// The static field of the row `r`, pushed.
fn ldsfld(
    y: Stay,
    at: usize,
    sp: usize,
    cells: &mut [u64; 2048],
    kinds: &mut [u8; 2048],
    marks: &mut [u8; 33],
    statics: &[u64; 64],
    fields: &[u8; 516],
    initialisers: &[u8; 33],
    r: usize,
) -> Step
    requires { Reaches y sp at r fields.now initialisers.now }
    ensures own { Own y sp result }
    ensures meets { ((c : Work) →
        let before = on_member c at sp cells.old kinds.old marks.old c.classes c.heap statics.now in
        ComesTo result (on_member c at sp cells.new kinds.new marks.new c.classes
        c.heap statics.now) before (ldsfld_row fields.now initialisers.now y before r (at + 5))) }
{
    if y.limit <= sp {
        return ends(Ending::TooMany);
    }
    let class = wide(fields[r * FIELD + FIELD_OWNER]);
    if let Some(first) = first_due(marks, initialisers, class) {
        return Step::Start { first: first };
    }
    marks[class] = 1;
    kinds[sp] = kind_of(fields[r * FIELD + TYPE]);
    cells[sp] = statics[wide(fields[r * FIELD + SLOT])];
    Step::On {
        at: at + SIZE,
        sp: sp + 1,
    }
}

// The value on top into the static field of the row `r`.
fn stsfld(
    y: Stay,
    at: usize,
    sp: usize,
    cells: &[u64; 2048],
    kinds: &[u8; 2048],
    marks: &mut [u8; 33],
    classes: &[u8; 256],
    statics: &mut [u64; 64],
    fields: &[u8; 516],
    initialisers: &[u8; 33],
    ancestors: &[u64; 33],
    r: usize,
) -> Step
    requires reaches { Reaches y sp at r fields.now initialisers.now }
    requires placed { Placed classes.now }
    ensures own { Own y sp result }
    ensures meets { ((c : Work) →
        let before = on_member c at sp cells.now kinds.now marks.old classes.now c.heap
        statics.old in
        ComesTo result (on_member c at sp cells.now kinds.now marks.new
        classes.now c.heap statics.new) before (stsfld_row fields.now initialisers.now ancestors.now y before r (at + 5))) }
{
    if sp <= y.floor {
        return ends(Ending::TooFew);
    }
    let value = cells[sp - 1];
    if !fits(
        classes,
        ancestors,
        kinds[sp - 1],
        value,
        fields[r * FIELD + TYPE],
    ) {
        return ends(Ending::WrongType);
    }
    let class = wide(fields[r * FIELD + FIELD_OWNER]);
    if let Some(first) = first_due(marks, initialisers, class) {
        return Step::Start { first: first };
    }
    marks[class] = 1;
    statics[wide(fields[r * FIELD + SLOT])] = value;
    Step::On {
        at: at + SIZE,
        sp: sp - 1,
    }
}

// stfld.
pub fn object_store(
    y: Stay,
    part: &[u8],
    at: usize,
    sp: usize,
    cells: &mut [u64; 2048],
    kinds: &mut [u8; 2048],
    marks: &mut [u8; 33],
    classes: &[u8; 256],
    heap: &mut [u64; 2048],
    fields: &[u8; 516],
    initialisers: &[u8; 33],
    ancestors: &[u64; 33],
    count: usize,
) -> Step
    requires reaches { Reaches y sp at 0 fields.now initialisers.now }
    requires at_range { (at < length part.now) × (count ≤ 128) }
    requires get_or_is { get_or part.now at 0 ≡ 0x7D }
    requires placed { Placed classes.now }
    ensures own { Own y sp result }
    ensures meets { ((P : Tables) (c : Work) → LendsFields P count fields.now initialisers.now ancestors.now →
        let before = on_member c at sp cells.old kinds.old marks.old classes.now heap.old
        c.statics in
        ComesTo result (on_member c at sp cells.new kinds.new marks.new
        classes.now heap.new c.statics) before (acts_w P part.now y before)) }
{
    match field_named(part, at, fields, count, 0) {
        Ok(r) => stfld(
            y,
            at,
            sp,
            cells,
            kinds,
            marks,
            classes,
            heap,
            fields,
            initialisers,
            ancestors,
            r,
        ),
        Err(e) => ends(e),
    }
}

// ldfld.
pub fn object_load(
    y: Stay,
    part: &[u8],
    at: usize,
    sp: usize,
    cells: &mut [u64; 2048],
    kinds: &mut [u8; 2048],
    marks: &mut [u8; 33],
    classes: &[u8; 256],
    heap: &mut [u64; 2048],
    fields: &[u8; 516],
    initialisers: &[u8; 33],
    ancestors: &[u64; 33],
    count: usize,
) -> Step
    requires reaches { Reaches y sp at 0 fields.now initialisers.now }
    requires at_range { (at < length part.now) × (count ≤ 128) }
    requires get_or_is { get_or part.now at 0 ≡ 0x7B }
    requires placed { Placed classes.now }
    ensures own { Own y sp result }
    ensures meets { ((P : Tables) (c : Work) → LendsFields P count fields.now initialisers.now ancestors.now →
        let before = on_member c at sp cells.old kinds.old marks.old classes.now heap.old
        c.statics in
        ComesTo result (on_member c at sp cells.new kinds.new marks.new
        classes.now heap.new c.statics) before (acts_w P part.now y before)) }
{
    match field_named(part, at, fields, count, 0) {
        Ok(r) => ldfld(
            y,
            at,
            sp,
            cells,
            kinds,
            marks,
            classes,
            heap,
            fields,
            initialisers,
            ancestors,
            r,
        ),
        Err(e) => ends(e),
    }
}

// stsfld.
pub fn static_store(
    y: Stay,
    part: &[u8],
    at: usize,
    sp: usize,
    cells: &mut [u64; 2048],
    kinds: &mut [u8; 2048],
    marks: &mut [u8; 33],
    classes: &[u8; 256],
    statics: &mut [u64; 64],
    fields: &[u8; 516],
    initialisers: &[u8; 33],
    ancestors: &[u64; 33],
    count: usize,
) -> Step
    requires reaches { Reaches y sp at 0 fields.now initialisers.now }
    requires at_range { (at < length part.now) × (count ≤ 128) }
    requires get_or_is { get_or part.now at 0 ≡ 0x80 }
    requires placed { Placed classes.now }
    ensures own { Own y sp result }
    ensures meets { ((P : Tables) (c : Work) → LendsFields P count fields.now initialisers.now ancestors.now →
        let before = on_member c at sp cells.old kinds.old marks.old classes.now c.heap
        statics.old in
        ComesTo result (on_member c at sp cells.new kinds.new marks.new
        classes.now c.heap statics.new) before (acts_w P part.now y before)) }
{
    match field_named(part, at, fields, count, 1) {
        Ok(r) => stsfld(
            y,
            at,
            sp,
            cells,
            kinds,
            marks,
            classes,
            statics,
            fields,
            initialisers,
            ancestors,
            r,
        ),
        Err(e) => ends(e),
    }
}

// ldsfld.
pub fn static_load(
    y: Stay,
    part: &[u8],
    at: usize,
    sp: usize,
    cells: &mut [u64; 2048],
    kinds: &mut [u8; 2048],
    marks: &mut [u8; 33],
    classes: &[u8; 256],
    statics: &mut [u64; 64],
    fields: &[u8; 516],
    initialisers: &[u8; 33],
    ancestors: &[u64; 33],
    count: usize,
) -> Step
    requires reaches { Reaches y sp at 0 fields.now initialisers.now }
    requires at_range { (at < length part.now) × (count ≤ 128) }
    requires get_or_is { get_or part.now at 0 ≡ 0x7E }
    requires placed { Placed classes.now }
    ensures own { Own y sp result }
    ensures meets { ((P : Tables) (c : Work) → LendsFields P count fields.now initialisers.now ancestors.now →
        let before = on_member c at sp cells.old kinds.old marks.old classes.now c.heap
        statics.old in
        ComesTo result (on_member c at sp cells.new kinds.new marks.new
        classes.now c.heap statics.new) before (acts_w P part.now y before)) }
{
    match field_named(part, at, fields, count, 1) {
        Ok(r) => ldsfld(
            y,
            at,
            sp,
            cells,
            kinds,
            marks,
            statics,
            fields,
            initialisers,
            r,
        ),
        Err(e) => ends(e),
    }
}

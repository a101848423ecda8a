// A method record: its body, what its sort asks, and the row that it fills.
ghost use Rattle.std.specs.Prelude.{◌≡◌, List, ℕ, ◌+◌, ◌≤◌, length};
ghost use Rattle.model.specs.Loading.{Loading as LoadingOf, method_record};
ghost use Rattle.loader.specs.Rules.{SortRule};
ghost use Rattle.loader.specs.Body.{body_of};
ghost use Rattle.loader.specs.Stands.{InitialiserRows, stored, method_cells, part_cells, marked, this_byte, one_if};
ghost use Rattle.loader.specs.Stands.{Stands, Leads, Fine};
ghost use Rattle.loader.specs.Kinds.{last_byte};
ghost use Rattle.loader.specs.Allowed.{is_return, code_in, method_allowed};

use crate::kind::Kind;
use crate::notes::Notes;
use crate::numbers;
use crate::overriding::{override_fits, root_of};
use crate::ranges::{is_row, type_fits};
use crate::refusal::Refusal;
use loaded::columns::{
    ARGUMENT_COUNT, ARGUMENTS, LENGTH, MAX_STACK, METHOD, OFFSET, OVERRIDDEN, OWNER, PART, RETURN,
    ROOT, SORT,
};
use loaded::{Counts, Loaded};

// A method's record, the code part's offset and length as whole numbers.
#[derive(Clone, Copy)]
pub struct Body {
    pub owner: u8,
    pub sort: u8,
    pub returns: u8,
    pub stack: u8,
    pub overridden: u8,
    pub offset: usize,
    pub size: usize,
}

// A method's record at an offset; numbers longer than a byte are little-endian.
pub fn read_body(tables: &[u8], at: usize) -> Body
    requires { at + 12 ≤ length tables.now }
    ensures { result ≡ body_of tables.now at }
{
    let offset = u32::from_le_bytes([
        tables[at + 6],
        tables[at + 7],
        tables[at + 8],
        tables[at + 9],
    ]);
    let size = u16::from_le_bytes([tables[at + 10], tables[at + 11]]);
    Body {
        owner: tables[at + 1],
        sort: tables[at + 2],
        returns: tables[at + 3],
        stack: tables[at + 4],
        overridden: tables[at + 5],
        offset: offset as usize,
        size: size as usize,
    }
}

// A return type is a type, or 0 for void.
fn return_fits(classes: usize, t: u8) -> bool
    ensures { result ≡ is_return classes t }
{
    if t == numbers::VOID {
        return true;
    }
    type_fits(classes, t)
}

// Code length 1 to 1,024 within the code buffer.
fn code_fits(code: usize, offset: usize, size: usize) -> bool
    ensures { result ≡ code_in code offset size }
{
    if size < 1 {
        return false;
    }
    if numbers::MOST_LENGTH < size {
        return false;
    }
    if code < size {
        return false;
    }
    offset <= code - size
}

// One initialiser at most for a class, none for Object, returning void; constructors return void.
fn sort_fits(b: Body, initialisers: &[u8; 33]) -> bool
    ensures { (L : LoadingOf) → InitialiserRows L.methods initialisers.now → SortRule L b.owner b.sort b.returns result }
{
    let o = b.owner as usize;
    if b.sort == numbers::INITIALISER {
        if o == 1 {
            return false;
        }
        if b.returns != numbers::VOID {
            return false;
        }
        if numbers::MOST_CLASSES < o {
            return true;
        }
        return initialisers[o] == 0;
    }
    if b.sort == numbers::CONSTRUCTOR {
        return b.returns == numbers::VOID;
    }
    true
}

// Whether a method record is taken; `over` and `fits` are the rules between records.
fn method_allowed(
    last: Option<Kind>,
    counts: Counts,
    b: Body,
    code: usize,
    over: bool,
    fits: bool,
) -> Result<(), Refusal>
    ensures { result ≡ method_allowed (last_byte last) counts.classes counts.methods b.owner b.sort b.returns b.stack
        (code_in code b.offset b.size) over fits }
{
    if !Kind::Method.follows(last) {
        return Err(Refusal::Order);
    }
    if !is_row(counts.classes, b.owner) {
        return Err(Refusal::Range);
    }
    if numbers::INITIALISER < b.sort {
        return Err(Refusal::Range);
    }
    if !return_fits(counts.classes, b.returns) {
        return Err(Refusal::Range);
    }
    if numbers::MOST_STACK < b.stack {
        return Err(Refusal::Range);
    }
    if !code_fits(code, b.offset, b.size) {
        return Err(Refusal::Range);
    }
    if numbers::MOST_METHODS <= counts.methods {
        return Err(Refusal::TooMany);
    }
    if !over {
        return Err(Refusal::Rule);
    }
    if !fits {
        return Err(Refusal::Rule);
    }
    Ok(())
}

// 32 and the class's row for the sorts with `this`, else 0.
#[tactic(auto, unfolding(crate::specs::Stands::this_byte, model::specs::Answer::pick))]
fn this_byte(sort: u8, owner: u8) -> u8
    requires { owner ≤ 32 }
    ensures { result ≡ this_byte sort owner }
{
    match sort {
        numbers::STATIC | numbers::INITIALISER => 0,
        _ => numbers::OBJECT + owner,
    }
}

fn mark_initialiser(initialisers: &mut [u8; 33], row: usize, sort: u8, owner: u8)
    requires row_at_most { row ≤ 128 }
    requires owner_at_most { owner ≤ 32 }
    ensures { initialisers.new ≡ marked initialisers.old sort owner row }
{
    if sort == numbers::INITIALISER {
        let o = owner as usize;
        initialisers[o] = row as u8;
    }
}

// A method's row; `this` is argument 0, and it has no parameter or local yet.
fn fill_row(methods: &mut [u8; 4128], row: usize, b: Body, this: u8, root: u8)
    requires { row ≤ 128 }
    ensures { methods.new ≡ stored 32 row methods.old (method_cells b (one_if this) this root) }
{
    let base = row * METHOD;
    methods[base + SORT] = b.sort;
    methods[base + OWNER] = b.owner;
    methods[base + RETURN] = b.returns;
    methods[base + MAX_STACK] = b.stack;
    methods[base + ARGUMENT_COUNT] = u8::from(this != 0);
    methods[base + ROOT] = root;
    methods[base + OVERRIDDEN] = b.overridden;
    methods[base + ARGUMENTS] = this;
}

// Where its code is.
fn fill_part(parts: &mut [usize; 258], row: usize, offset: usize, size: usize)
    requires { row ≤ 128 }
    ensures { parts.new ≡ stored 2 row parts.old (part_cells offset size) }
{
    let base = row * PART;
    parts[base + OFFSET] = offset;
    parts[base + LENGTH] = size;
}

pub fn method_record(
    loaded: &mut Loaded,
    notes: &mut Notes,
    b: Body,
    place: usize,
    code: usize,
) -> Result<(), Refusal>
    requires { Fine loaded.old.counts }
    ensures { (buffer : List ℕ) (L : LoadingOf) → code ≡ length buffer → Stands buffer L loaded.old notes.old
        → Leads buffer (method_record buffer L place b.owner b.sort b.returns b.stack b.overridden b.offset b.size) result
        loaded.new notes.new }
{
    let n = loaded.counts.methods;
    let over = override_fits(b, n, &loaded.parents, &loaded.methods);
    let fits = sort_fits(b, &loaded.initialisers);
    method_allowed(notes.last, loaded.counts, b, code, over, fits)?;
    let row = n + 1;
    let this = this_byte(b.sort, b.owner);
    let root = root_of(&loaded.methods, row, b.overridden);
    fill_row(&mut loaded.methods, row, b, this, root);
    fill_part(&mut loaded.parts, row, b.offset, b.size);
    notes.places[row] = place;
    mark_initialiser(&mut loaded.initialisers, row, b.sort, b.owner);
    loaded.counts.methods = row;
    notes.last = Some(Kind::Method);
    Ok(())
}

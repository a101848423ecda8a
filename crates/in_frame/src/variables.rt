// Arguments and locals.
ghost use Rattle.std.specs.Prelude.{◌≡◌, ◌<◌, ◌≤◌, length, slice_index};
ghost use Rattle.state.specs.View.{Work};
ghost use Rattle.state.specs.Work.{Tables, load_w, store_w, ldarg_w, starg_w, ldloc_w, stloc_w, acts_w};
ghost use Rattle.state.specs.Meets.{Stays, Topped, Placed, on_stack};
ghost use Rattle.state.specs.Steps.{Own, ComesTo};

use crate::stack::push;
use code::operands::{byte_after, whole};
use state::columns::LOCALS;
use state::ending::{Ending, ends};
use state::fit::fits;
use state::{Stay, Step};

// How many arguments and locals a frame has cells for.
const ARGUMENTS: usize = 8;

const LOCAL_COUNT: usize = 16;

// Variable i of the frame is pushed: the arguments come first, then the locals.
fn load(
    y: Stay,
    at: usize,
    sp: usize,
    cells: &mut [u64; 2048],
    kinds: &mut [u8; 2048],
    variables: &[u8; 4128],
    i: usize,
    next: usize,
) -> Step
    requires stays { Stays y }
    requires topped { Topped y sp }
    requires i_below { i < 24 }
    ensures own { Own y sp result }
    ensures meets { ((c : Work) →
        let before = on_stack c at sp cells.old kinds.old in
        ComesTo result (on_stack c at sp cells.new kinds.new) before (load_w variables.now y before i next)) }
{
    let m = y.mp + i;
    let k = variables[m];
    if 3 < k {
        return ends(Ending::BadOperand);
    }
    let v = cells[y.fp + i];
    push(y, at, sp, cells, kinds, k, v, next)
}

// The top value is popped into variable i, where it fits the variable's type.
fn store(
    y: Stay,
    at: usize,
    sp: usize,
    cells: &mut [u64; 2048],
    kinds: &[u8; 2048],
    methods: &[u8; 4128],
    ancestors: &[u64; 33],
    classes: &[u8; 256],
    i: usize,
    next: usize,
) -> Step
    requires stays { Stays y }
    requires topped { Topped y sp }
    requires i_below { i < 24 }
    requires placed { Placed classes.now }
    ensures own { Own y sp result }
    ensures meets { ((c : Work) → c.classes ≡ classes.now →
        let before = on_stack c at sp cells.old kinds.now in
        ComesTo result (on_stack c at sp cells.new kinds.now) before (store_w methods.now ancestors.now y before i next)) }
{
    let m = y.mp + i;
    let byte = methods[m];
    if byte == 0 {
        return ends(Ending::BadOperand);
    }
    if sp <= y.floor {
        return ends(Ending::TooFew);
    }
    let v = cells[sp - 1];
    if fits(classes, ancestors, kinds[sp - 1], v, byte) {
        cells[y.fp + i] = v;
        return Step::On {
            at: next,
            sp: sp - 1,
        };
    }
    ends(Ending::WrongType)
}

pub fn ldarg(
    y: Stay,
    at: usize,
    sp: usize,
    cells: &mut [u64; 2048],
    kinds: &mut [u8; 2048],
    variables: &[u8; 4128],
    i: usize,
    next: usize,
) -> Step
    requires stays { Stays y }
    requires topped { Topped y sp }
    ensures own { Own y sp result }
    ensures meets { ((c : Work) →
        let before = on_stack c at sp cells.old kinds.old in
        ComesTo result (on_stack c at sp cells.new kinds.new) before (ldarg_w variables.now y before i next)) }
{
    if ARGUMENTS <= i {
        return ends(Ending::BadOperand);
    }
    load(y, at, sp, cells, kinds, variables, i, next)
}

pub fn ldloc(
    y: Stay,
    at: usize,
    sp: usize,
    cells: &mut [u64; 2048],
    kinds: &mut [u8; 2048],
    variables: &[u8; 4128],
    i: usize,
    next: usize,
) -> Step
    requires stays { Stays y }
    requires topped { Topped y sp }
    ensures own { Own y sp result }
    ensures meets { ((c : Work) →
        let before = on_stack c at sp cells.old kinds.old in
        ComesTo result (on_stack c at sp cells.new kinds.new) before (ldloc_w variables.now y before i next)) }
{
    if LOCAL_COUNT <= i {
        return ends(Ending::BadOperand);
    }
    load(y, at, sp, cells, kinds, variables, LOCALS + i, next)
}

pub fn starg(
    y: Stay,
    at: usize,
    sp: usize,
    cells: &mut [u64; 2048],
    kinds: &[u8; 2048],
    methods: &[u8; 4128],
    ancestors: &[u64; 33],
    classes: &[u8; 256],
    i: usize,
    next: usize,
) -> Step
    requires stays { Stays y }
    requires topped { Topped y sp }
    requires placed { Placed classes.now }
    ensures own { Own y sp result }
    ensures meets { ((c : Work) → c.classes ≡ classes.now →
        let before = on_stack c at sp cells.old kinds.now in
        ComesTo result (on_stack c at sp cells.new kinds.now) before (starg_w methods.now ancestors.now y before i next)) }
{
    if ARGUMENTS <= i {
        return ends(Ending::BadOperand);
    }
    store(
        y, at, sp, cells, kinds, methods, ancestors, classes, i, next,
    )
}

pub fn stloc(
    y: Stay,
    at: usize,
    sp: usize,
    cells: &mut [u64; 2048],
    kinds: &[u8; 2048],
    methods: &[u8; 4128],
    ancestors: &[u64; 33],
    classes: &[u8; 256],
    i: usize,
    next: usize,
) -> Step
    requires stays { Stays y }
    requires topped { Topped y sp }
    requires placed { Placed classes.now }
    ensures own { Own y sp result }
    ensures meets { ((c : Work) → c.classes ≡ classes.now →
        let before = on_stack c at sp cells.old kinds.now in
        ComesTo result (on_stack c at sp cells.new kinds.now) before (stloc_w methods.now ancestors.now y before i next)) }
{
    if LOCAL_COUNT <= i {
        return ends(Ending::BadOperand);
    }
    store(
        y,
        at,
        sp,
        cells,
        kinds,
        methods,
        ancestors,
        classes,
        LOCALS + i,
        next,
    )
}

// ldarg.s: the byte after the opcode has the number.
pub fn ldarg_s(
    y: Stay,
    part: &[u8],
    at: usize,
    sp: usize,
    cells: &mut [u64; 2048],
    kinds: &mut [u8; 2048],
    variables: &[u8; 4128],
) -> Step
    requires stays { Stays y }
    requires topped { Topped y sp }
    requires at_range { (at < length part.now) × (length part.now ≤ 1024) }
    ensures own { Own y sp result }
    ensures meets { ((P : Tables) (c : Work) → P.variables ≡ variables.now → slice_index part.now at ≡ 0x0E →
        let before = on_stack c at sp cells.old kinds.old in
        ComesTo result (on_stack c at sp cells.new kinds.new) before (acts_w P part.now y before)) }
{
    if !whole(part, at, 2) {
        return ends(Ending::Undecodable);
    }
    ldarg(
        y,
        at,
        sp,
        cells,
        kinds,
        variables,
        byte_after(part, at),
        at + 2,
    )
}

// ldloc.s: the byte after the opcode has the number.
pub fn ldloc_s(
    y: Stay,
    part: &[u8],
    at: usize,
    sp: usize,
    cells: &mut [u64; 2048],
    kinds: &mut [u8; 2048],
    variables: &[u8; 4128],
) -> Step
    requires stays { Stays y }
    requires topped { Topped y sp }
    requires at_range { (at < length part.now) × (length part.now ≤ 1024) }
    ensures own { Own y sp result }
    ensures meets { ((P : Tables) (c : Work) → P.variables ≡ variables.now → slice_index part.now at ≡ 0x11 →
        let before = on_stack c at sp cells.old kinds.old in
        ComesTo result (on_stack c at sp cells.new kinds.new) before (acts_w P part.now y before)) }
{
    if !whole(part, at, 2) {
        return ends(Ending::Undecodable);
    }
    ldloc(
        y,
        at,
        sp,
        cells,
        kinds,
        variables,
        byte_after(part, at),
        at + 2,
    )
}

// starg.s: the byte after the opcode has the number.
pub fn starg_s(
    y: Stay,
    part: &[u8],
    at: usize,
    sp: usize,
    cells: &mut [u64; 2048],
    kinds: &[u8; 2048],
    methods: &[u8; 4128],
    ancestors: &[u64; 33],
    classes: &[u8; 256],
) -> Step
    requires stays { Stays y }
    requires topped { Topped y sp }
    requires at_range { (at < length part.now) × (length part.now ≤ 1024) }
    requires placed { Placed classes.now }
    ensures own { Own y sp result }
    ensures meets { ((P : Tables) (c : Work)
        → P.methods ≡ methods.now → P.ancestors ≡ ancestors.now → c.classes ≡ classes.now
        → slice_index part.now at ≡ 0x10 →
        let before = on_stack c at sp cells.old kinds.now in
        ComesTo result (on_stack c at sp cells.new kinds.now) before (acts_w P part.now y before)) }
{
    if !whole(part, at, 2) {
        return ends(Ending::Undecodable);
    }
    starg(
        y,
        at,
        sp,
        cells,
        kinds,
        methods,
        ancestors,
        classes,
        byte_after(part, at),
        at + 2,
    )
}

// stloc.s: the byte after the opcode has the number.
pub fn stloc_s(
    y: Stay,
    part: &[u8],
    at: usize,
    sp: usize,
    cells: &mut [u64; 2048],
    kinds: &[u8; 2048],
    methods: &[u8; 4128],
    ancestors: &[u64; 33],
    classes: &[u8; 256],
) -> Step
    requires stays { Stays y }
    requires topped { Topped y sp }
    requires at_range { (at < length part.now) × (length part.now ≤ 1024) }
    requires placed { Placed classes.now }
    ensures own { Own y sp result }
    ensures meets { ((P : Tables) (c : Work)
        → P.methods ≡ methods.now → P.ancestors ≡ ancestors.now → c.classes ≡ classes.now
        → slice_index part.now at ≡ 0x13 →
        let before = on_stack c at sp cells.old kinds.now in
        ComesTo result (on_stack c at sp cells.new kinds.now) before (acts_w P part.now y before)) }
{
    if !whole(part, at, 2) {
        return ends(Ending::Undecodable);
    }
    stloc(
        y,
        at,
        sp,
        cells,
        kinds,
        methods,
        ancestors,
        classes,
        byte_after(part, at),
        at + 2,
    )
}

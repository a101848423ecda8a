// One instruction that is no branch: its operand, then its effect on a shape.
ghost use Rattle.std.specs.Prelude.{◌≡◌, ℕ, ◌≤◌, ◌<◌, length};
ghost use Rattle.std.proofs.Math.Option.{Option};
ghost use Rattle.model.specs.Tables.{Ty, Method, Module};
ghost use Rattle.model.specs.Code.{operands, castclass};
ghost use Rattle.model.specs.Check.{pushes, pops_one, effect};
ghost use Rattle.ancestor.specs.Parents.{Parents};
ghost use Rattle.shapes.specs.Pool.{Small, Operand};
ghost use Rattle.check_operands.specs.Groups.{plain_by, call_by, field_by, ins_by};
ghost use Rattle.check_operands.specs.Held.{Typed, HeldClasses, HeldFields, HeldMethods, Own};

use super::group::{CALL, CASTS, LDFLD, LDSFLD};
use super::operand::{
    INSTANCE, NEW, ONE_FOR_ALL, argument, class_row, field_row, local, method_row,
};
use loaded::Counts;
use loaded::columns::{ARGUMENT_COUNT, FIELD, FIELD_OWNER, LOCALS, METHOD, OWNER, RETURN, TYPE};
use shapes::fault::FaultKind;
use shapes::fit::class_byte;
use shapes::kind::{Pair, Unary};
use shapes::numbers::{CLASS, F, INT32, INT64, NULL};
use shapes::shape::Pool;

// An argument or local is loaded, if there is one.
fn load(pool: &mut Pool, s: usize, t: Option<u8>, max: u8) -> Result<usize, FaultKind>
    requires made_below { pool.old.made < 2048 }
    requires s_below { s < 2048 }
    ensures small { Small pool.old pool.new result }
    ensures operand { (m : Method) (o : Option Ty) → m.max_stack ≡ max → Typed t o → Operand pool.old pool.new result s (pushes m) o }
{
    match t {
        Some(t) => pool.push(s, t, max),
        None => Err(FaultKind::Operand),
    }
}

// A value goes to an argument or local, if there is one.
fn keep(pool: &Pool, parents: &[u8; 33], s: usize, t: Option<u8>) -> Result<usize, FaultKind>
    requires s_below { s < 2048 }
    ensures small { Small pool.now pool.now result }
    ensures operand { (M : Module) (o : Option Ty) → Parents M.parents parents.now → Typed t o →
        Operand pool.now pool.now result s (pops_one M) o }
{
    match t {
        Some(t) => pool.store(parents, s, t),
        None => Err(FaultKind::Operand),
    }
}

// Instructions on arguments and locals, and those without an operand at fault.
pub fn plain(
    pool: &mut Pool,
    parents: &[u8; 33],
    methods: &[u8; 4128],
    s: usize,
    row: usize,
    due: u8,
    max: u8,
    g: u8,
    op: usize,
    n: usize,
) -> Result<usize, FaultKind>
    requires made_below { pool.old.made < 2048 }
    requires s_below { s < 2048 }
    requires row_below { row < 129 }
    requires op_below { op < 65536 }
    ensures small { Small pool.old pool.new result }
    ensures operand { (M : Module) (m : Method) → Parents M.parents parents.now → Own m row max due methods.now →
        Operand pool.old pool.new result s (effect M m) (operands M m (plain_by g op n)) }
{
    match g {
        0 => Ok(s),
        1 => pool.pop(s),
        2 => pool.dup(s, max),
        3 => pool.ret(parents, s, due),
        4 => pool.push(s, NULL, max),
        5 => pool.push(s, INT32, max),
        6 => pool.push(s, INT64, max),
        7 => pool.push(s, F, max),
        8 => load(pool, s, argument(methods, row, (op + 2) % 4), max),
        9 => load(pool, s, argument(methods, row, n), max),
        10 => keep(pool, parents, s, argument(methods, row, n)),
        11 => load(pool, s, local(methods, row, (op + 2) % 4), max),
        12 => keep(pool, parents, s, local(methods, row, (op + 2) % 4)),
        13 => load(pool, s, local(methods, row, n), max),
        14 => keep(pool, parents, s, local(methods, row, n)),
        15 => pool.binary(s, Pair::Numbers),
        16 => pool.binary(s, Pair::Integers),
        17 => pool.binary(s, Pair::Shift),
        18 => pool.compare(s, Pair::Alike),
        19 => pool.unary(s, Unary::Neg),
        20 => pool.unary(s, Unary::Not),
        21 => pool.unary(s, Unary::ConvI4),
        23 => pool.unary(s, Unary::ConvR8),
        24 => pool.compare(s, Pair::Numbers),
        _ => pool.unary(s, Unary::ConvI8),
    }
}

// call, callvirt and newobj.
fn calls(
    pool: &mut Pool,
    count: usize,
    parents: &[u8; 33],
    methods: &[u8; 4128],
    s: usize,
    max: u8,
    which: u8,
    token: u64,
) -> Result<usize, FaultKind>
    requires made_below { pool.old.made < 2048 }
    requires s_below { s < 2048 }
    ensures small { Small pool.old pool.new result }
    ensures operand { (M : Module) (m : Method) → m.max_stack ≡ max → Parents M.parents parents.now →
        HeldMethods M count methods.now → which < 3 → Operand pool.old pool.new result s (effect M m) (operands M m (call_by which token)) }
{
    let Some(r) = method_row(count, methods, token, which) else {
        return Err(FaultKind::Operand);
    };
    let start = r * METHOD;
    let n = methods[start + ARGUMENT_COUNT] as usize;
    if LOCALS < n {
        return Err(FaultKind::Operand);
    }
    if which == NEW {
        if n == 0 {
            return Err(FaultKind::Operand);
        }
        let gives = class_byte(methods[start + OWNER]);
        return pool.call(parents, &methods[start + 1..start + n], s, gives, max);
    }
    let gives = methods[start + RETURN];
    pool.call(parents, &methods[start..start + n], s, gives, max)
}

// castclass and isinst.
fn casts(pool: &mut Pool, classes: usize, s: usize, token: u64) -> Result<usize, FaultKind>
    requires made_below { pool.old.made < 2048 }
    requires s_below { s < 2048 }
    ensures small { Small pool.old pool.new result }
    ensures operand { (M : Module) (m : Method) → classes ≡ length M.parents → classes ≤ 32 →
        Operand pool.old pool.new result s (effect M m) (operands M m (castclass token)) }
{
    match class_row(classes, token) {
        Some(r) => pool.cast(s, r as u8 + CLASS),
        None => Err(FaultKind::Operand),
    }
}

// The instructions on fields: 29 ldfld, 30 stfld, 31 ldsfld, else stsfld.
fn fields_of(
    pool: &mut Pool,
    count: usize,
    parents: &[u8; 33],
    fields: &[u8; 516],
    s: usize,
    max: u8,
    g: u8,
    token: u64,
) -> Result<usize, FaultKind>
    requires made_below { pool.old.made < 2048 }
    requires s_below { s < 2048 }
    ensures small { Small pool.old pool.new result }
    ensures operand { (M : Module) (m : Method) → m.max_stack ≡ max → Parents M.parents parents.now →
        HeldFields M count fields.now → 28 < g → Operand pool.old pool.new result s (effect M m) (operands M m (field_by g token)) }
{
    if g < LDSFLD {
        let Some(r) = field_row(count, fields, token, INSTANCE) else {
            return Err(FaultKind::Operand);
        };
        let owner = class_byte(fields[r * FIELD + FIELD_OWNER]);
        let t = fields[r * FIELD + TYPE];
        if g == LDFLD {
            return pool.ldfld(parents, s, owner, t);
        }
        return pool.stfld(parents, s, owner, t);
    }
    let Some(r) = field_row(count, fields, token, ONE_FOR_ALL) else {
        return Err(FaultKind::Operand);
    };
    let t = fields[r * FIELD + TYPE];
    if g == LDSFLD {
        return pool.push(s, t, max);
    }
    pool.store(parents, s, t)
}

// Instructions with a token: groups 25 to 32.
pub fn step(
    pool: &mut Pool,
    counts: Counts,
    parents: &[u8; 33],
    fields: &[u8; 516],
    methods: &[u8; 4128],
    s: usize,
    max: u8,
    g: u8,
    n: u64,
) -> Result<usize, FaultKind>
    requires made_below { pool.old.made < 2048 }
    requires s_below { s < 2048 }
    requires g_positive { 25 ≤ g }
    ensures small { Small pool.old pool.new result }
    ensures operand { (M : Module) (m : Method) (op : ℕ) → m.max_stack ≡ max →
        HeldClasses M counts.classes parents.now → HeldFields M counts.fields fields.now →
        HeldMethods M counts.methods methods.now → g < 33 →
        Operand pool.old pool.new result s (effect M m) (operands M m (ins_by g op n 0)) }
{
    if g < CASTS {
        return calls(pool, counts.methods, parents, methods, s, max, g - CALL, n);
    }
    if g == CASTS {
        return casts(pool, counts.classes, s, n);
    }
    fields_of(pool, counts.fields, parents, fields, s, max, g, n)
}

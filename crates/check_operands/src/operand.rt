// Operands: declared types of arguments and locals, and the rows of tokens.
ghost use Rattle.std.specs.Prelude.{◌≡◌, List, ℕ, ◌+◌, ◌*◌, ◌≤◌, ◌<◌, length, eqb, IfSome};
ghost use Rattle.std.proofs.Math.Option.{none, some};
ghost use Rattle.model.specs.Answer.{at, is_none, only_if};
ghost use Rattle.model.specs.Tables.{Ty, Sort, sort_byte, Method, Module, arguments};
ghost use Rattle.model.specs.Code.{row_of, operands, and_then};
ghost use Rattle.code.specs.Operand.{maybe};
ghost use Rattle.loaded.specs.Holds.{method_cell, field_cell};
ghost use Rattle.shapes.specs.Effects.{Types};
ghost use Rattle.check_operands.specs.Groups.{may_call, plain_by};
ghost use Rattle.check_operands.specs.Held.{Typed, Own, row_among};

use code::operand::row_of;
use loaded::columns::{ARGUMENT_COUNT, FIELD, LOCAL_COUNT, LOCALS, METHOD, SORT, STATIC};

pub const MOST_LOCALS: usize = 16;

// Whether a field is static, as its row says.
pub const INSTANCE: u8 = 0;

pub const ONE_FOR_ALL: u8 = 1;

// Which instruction calls: call, callvirt, newobj.
const DIRECT: u8 = 0;

const VIRTUAL: u8 = 1;

pub const NEW: u8 = 2;

// Sorts of methods.
const INSTANCE_METHOD: u8 = 1;

const VIRTUAL_METHOD: u8 = 2;

const CONSTRUCTOR: u8 = 3;

const INITIALISER: u8 = 4;

// Kinds of tokens, and the most rows of each.
const CLASS_TOKEN: u8 = 2;

const FIELD_TOKEN: u8 = 4;

const METHOD_TOKEN: u8 = 6;

const CLASSES: usize = 32;

const FIELDS: usize = 128;

const METHODS: usize = 128;

// The type of an argument or local of a method, if it has one of that number.
pub fn declared(
    methods: &[u8; 4128],
    row: usize,
    column: usize,
    from: usize,
    most: usize,
    i: usize,
) -> Option<u8>
    requires row_below { row < 129 }
    requires column_below { column < 32 }
    requires from_at_most { from + most ≤ 24 }
    ensures { (ts : List Ty) → method_cell methods.now row column ≡ length ts → length ts ≤ most →
        Types methods.now (row * 32 + from) ts → Typed result (at ts i) }
{
    if most <= i {
        return None;
    }
    let start = row * METHOD;
    if usize::from(methods[start + column]) <= i {
        return None;
    }
    Some(methods[start + from + i])
}

// The type of an argument of the method that is checked, and of a local.
pub fn argument(methods: &[u8; 4128], row: usize, i: usize) -> Option<u8>
    requires row_below { row < 129 }
    ensures { (m : Method) (max due : ℕ) → Own m row max due methods.now → Typed result (at (arguments m) i) }
{
    declared(methods, row, ARGUMENT_COUNT, 0, LOCALS, i)
}

pub fn local(methods: &[u8; 4128], row: usize, i: usize) -> Option<u8>
    requires row_below { row < 129 }
    ensures { (m : Method) (max due : ℕ) → Own m row max due methods.now → Typed result (at m.locals i) }
{
    declared(methods, row, LOCAL_COUNT, LOCALS, MOST_LOCALS, i)
}

// Whether an instruction is on an argument or local that the method does not have.
pub fn undeclared(methods: &[u8; 4128], row: usize, g: u8, op: usize, n: usize) -> bool
    requires row_below { row < 129 }
    requires op_below { op < 65536 }
    ensures { (M : Module) (m : Method) (max due : ℕ) → Own m row max due methods.now → result ≡ is_none (operands M m (plain_by g op n)) }
{
    match g {
        8 => argument(methods, row, (op + 2) % 4).is_none(),
        9 => argument(methods, row, n).is_none(),
        10 => argument(methods, row, n).is_none(),
        11 => local(methods, row, (op + 2) % 4).is_none(),
        12 => local(methods, row, (op + 2) % 4).is_none(),
        13 => local(methods, row, n).is_none(),
        14 => local(methods, row, n).is_none(),
        _ => false,
    }
}

// The row of a token of a kind among n rows.
fn token_row(kind: u8, token: u64, n: usize, most: usize) -> Option<usize>
    ensures result_at_most { IfSome result (λ r. r ≤ most) }
    ensures as_model { n ≤ most → maybe result ≡ row_among n (row_of kind token) }
{
    let r = row_of(kind, token)?;
    if r == 0 {
        return None;
    }
    if n.min(most) < r {
        return None;
    }
    Some(r)
}

pub fn class_row(classes: usize, token: u64) -> Option<usize>
    ensures result_at_most { IfSome result (λ r. r ≤ 32) }
    ensures as_model { classes ≤ 32 → maybe result ≡ row_among classes (row_of 2 token) }
{
    token_row(CLASS_TOKEN, token, classes, CLASSES)
}

// The row of a field that is static or not as `flag` says.
pub fn field_row(count: usize, fields: &[u8; 516], token: u64, flag: u8) -> Option<usize>
    ensures result_at_most { IfSome result (λ r. r ≤ 128) }
    ensures as_model { count ≤ 128 → maybe result ≡ and_then (row_among count (row_of 4 token))
        (λ r. only_if (eqb (field_cell fields.now r 1) flag) (some r)) }
{
    let r = token_row(FIELD_TOKEN, token, count, FIELDS)?;
    (fields[r * FIELD + STATIC] == flag).then_some(r)
}

// Whether an instruction may call a method of a sort: 0 call, 1 callvirt, 2 newobj.
fn may_call(which: u8, sort: u8) -> bool
    ensures { (s : Sort) → sort_byte s ≡ sort → result ≡ may_call which s }
{
    match which {
        DIRECT => sort != INITIALISER,
        VIRTUAL => sort == INSTANCE_METHOD || sort == VIRTUAL_METHOD,
        _ => sort == CONSTRUCTOR,
    }
}

// The row of a method that an instruction may call.
pub fn method_row(count: usize, methods: &[u8; 4128], token: u64, which: u8) -> Option<usize>
    ensures result_at_most { IfSome result (λ r. r ≤ 128) }
    ensures as_model { (r : ℕ) (s : Sort) → count ≤ 128 → row_among count (row_of 6 token) ≡ some r →
        sort_byte s ≡ method_cell methods.now r 24 → maybe result ≡ only_if (may_call which s) (some r) }
    ensures none { count ≤ 128 → row_among count (row_of 6 token) ≡ none → maybe result ≡ none }
{
    let r = token_row(METHOD_TOKEN, token, count, METHODS)?;
    may_call(which, methods[r * METHOD + SORT]).then_some(r)
}

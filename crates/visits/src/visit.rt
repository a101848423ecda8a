// One instruction of the check: where its shape arrives, its target, and whether it can fall past the end.
ghost use Rattle.std.specs.Prelude.{◌≡◌, true, List, [], ℕ, ◌≤◌, ◌<◌, length, get_or, set, IfSome, IfOk};
ghost use Rattle.std.proofs.Math.Option.{none, some};
ghost use Rattle.model.specs.Answer.{map_option};
ghost use Rattle.model.specs.Tables.{Method, Module};
ghost use Rattle.model.specs.Code.{Ins, operands};
ghost use Rattle.model.specs.Check.{Shape, Shapes, Site, meet, effect, jump_effect, shape_at};
ghost use Rattle.code.specs.Operand.{held, maybe};
ghost use Rattle.shapes.specs.declared.shape.Pool.{Pool as Seen};
ghost use Rattle.shapes.specs.Pool.{Fine, Shows, Agrees, Takes};
ghost use Rattle.check_operands.specs.Groups.{group_of, ins_by, jump_by, target_by};
ghost use Rattle.visits.specs.Found.{Kept, Starts, Read, Met, Went, WentBy, Lands, landing, goes_on, jumped};
ghost use Rattle.visits.specs.Visits.{Visits};

use check_operands::group::{BR, BR_EQUAL, BR_TEST, RET};
use code::insn::Insn;
use code::operand::{Distance, target};
use shapes::fault::FaultKind;
use shapes::kind::Pair;
use shapes::shape::{EMPTY, Pool, SHAPES};

// The first opcode with a distance of four bytes.
const FIRST_FAR: usize = 0x38;

// The longest code of a method.
const MOST_CODE: usize = 1024;

// The shape found at an offset.
pub fn found_at(found: &[u16; 1024], o: usize) -> Option<usize>
    ensures result_below { IfSome result (λ s. s < 2048) }
    ensures read { (P : Seen) (n : ℕ) (F : Shapes) → Fine P → Kept P n F found.now → o < n → n ≤ 1024 → Read P result (get_or F o none) }
{
    let s = (*found.get(o)? % SHAPES) as usize;
    (s != 0).then_some(s)
}

// An arrival: the first brings the shape, every later one must bring the same.
pub fn meets(pool: &Pool, found: &mut [u16; 1024], o: usize, s: usize) -> Result<(), FaultKind>
    requires o_below { o < 1024 }
    requires s_below { s < 2048 }
    ensures { (n : ℕ) (F : Shapes) (S : Shape) → Fine pool.now → Kept pool.now n F found.old → o < n → n ≤ 1024 →
        Shows pool.now S s → Met pool.now n result found.new (meet F o S (get_or F o none)) }
{
    let Some(f) = found_at(found, o) else {
        found[o] = s as u16;
        return Ok(());
    };
    if pool.same(s, f) {
        return Ok(());
    }
    Err(FaultKind::OtherShape)
}

// Where a branch goes, by the width of its distance.
fn target_of(op: usize, next: usize, d: u64) -> Option<usize>
    ensures { maybe result ≡ map_option held (target_by op next d) }
{
    if op < FIRST_FAR {
        return target(Distance::Byte, next, d);
    }
    target(Distance::Word, next, d)
}

// The target of a branch, if an instruction starts there.
pub fn lands(starts: &[u8; 1024], size: usize, op: usize, next: usize, d: u64) -> Option<usize>
    ensures result_below { IfSome result (λ t. t < 1024) }
    ensures lands { ((all : List (Site Ins)) → size ≤ 1024 → Starts all size starts.now →
        Lands size result (landing all size (target_by op next d))) }
{
    let t = target_of(op, next, d)?;
    if size.min(MOST_CODE) <= t {
        return None;
    }
    (starts[t] != 0).then_some(t)
}

// The effect of a branch: 33 br, 34 brtrue and brfalse, 35 beq and bne.un, else another comparison.
pub fn branch(pool: &Pool, s: usize, g: u8) -> Result<usize, FaultKind>
    requires s_below { s < 2048 }
    ensures shape_below { IfOk result (λ r. r < 2048) }
    ensures agrees { (S : Shape) → Fine pool.now → Shows pool.now S s → Agrees pool.now result (jump_effect (jump_by g) S) }
{
    match g {
        BR => Ok(s),
        BR_TEST => pool.test(s),
        BR_EQUAL => pool.when(s, Pair::Alike),
        _ => pool.when(s, Pair::Numbers),
    }
}

// The arrival at the next instruction, for one that can fall through.
fn onward(
    pool: &Pool,
    found: &mut [u16; 1024],
    size: usize,
    next: usize,
    s: usize,
) -> Result<(), FaultKind>
    requires size_at_most { size ≤ 1024 }
    requires s_below { s < 2048 }
    ensures { (F : Shapes) (S : Shape) → Fine pool.now → Kept pool.now size F found.old → Shows pool.now S s →
        Went pool.now size result found.new (goes_on size F true next [] S) }
{
    if size <= next {
        return Err(FaultKind::FallsPast);
    }
    meets(pool, found, next, s)
}

// After the effect of an instruction that is no branch: its fault, nothing after ret, or the arrival at the next instruction.
pub fn arrived(
    pool: &Pool,
    found: &mut [u16; 1024],
    size: usize,
    i: Insn,
    g: u8,
    after: Result<usize, FaultKind>,
) -> Result<(), FaultKind>
    requires size_at_most { size ≤ 1024 }
    requires shape_below { IfOk after (λ s. s < 2048) }
    ensures { (M : Module) (m : Method) (all : List (Site Ins)) (F : Shapes) (o : ℕ) → length m.code ≡ size → g ≡ group_of i.op → g < 33 →
        Fine pool.now → Kept pool.now size (set F o (some (shape_at F o))) found.old →
        Takes pool.now after (λ x. effect M m x (shape_at F o)) (operands M m (ins_by g i.op i.operand 0)) →
        Visits M m all F o i size result found.new pool.now }
{
    let s = after?;
    if g == RET {
        return Ok(());
    }
    onward(pool, found, size, i.next, s)
}

// A branch: its target, its effect, then the arrivals at the next instruction and at the target.
pub fn visit_branch(
    starts: &[u8; 1024],
    pool: &Pool,
    found: &mut [u16; 1024],
    size: usize,
    s: usize,
    g: u8,
    op: usize,
    next: usize,
    d: u64,
) -> Result<(), FaultKind>
    requires size_at_most { size ≤ 1024 }
    requires made_below { pool.now.made < 2048 }
    requires s_below { s < 2048 }
    ensures { (all : List (Site Ins)) (F : Shapes) (S : Shape) → Starts all size starts.now →
        Fine pool.now → Kept pool.now size F found.old → Shows pool.now S s →
        WentBy pool.now size result found.new (jumped size F (jump_by g) next S) (landing all size (target_by op next d)) }
{
    let Some(t) = lands(starts, size, op, next, d) else {
        return Err(FaultKind::Operand);
    };
    let r = branch(pool, s, g)?;
    if g == BR {
        return meets(pool, found, t, r);
    }
    if size <= next {
        meets(pool, found, t, r)?;
        return Err(FaultKind::FallsPast);
    }
    meets(pool, found, next, r)?;
    meets(pool, found, t, r)
}

// The shape at an instruction, empty where none comes.
pub fn shape_at(found: &mut [u16; 1024], o: usize) -> usize
    requires { o < 1024 }
    ensures result_below { result < 2048 }
    ensures shows { (P : Seen) (n : ℕ) (F : Shapes) → Fine P → Kept P n F found.old → o < n → n ≤ 1024 →
        Shows P (shape_at F o) result × Kept P n (set F o (some (shape_at F o))) found.new }
{
    let Some(s) = found_at(found, o) else {
        found[o] = EMPTY as u16;
        return EMPTY;
    };
    s
}

// One instruction: its operand, its effect, and the arrivals of its shape.
ghost use Rattle.std.specs.Prelude.{◌≡◌, List, ℕ, ◌+◌, ◌≤◌, ◌<◌, length};
ghost use Rattle.model.specs.Answer.{is_none};
ghost use Rattle.model.specs.Tables.{Method, Module};
ghost use Rattle.model.specs.Code.{Ins};
ghost use Rattle.model.specs.Check.{Shapes, Site};
ghost use Rattle.code.specs.Insn.{ins_of};
ghost use Rattle.shapes.specs.Pool.{pool, Fine};
ghost use Rattle.check_operands.specs.Groups.{groups as group_table};
ghost use Rattle.check_operands.specs.Held.{Held};
ghost use Rattle.visits.specs.Found.{Starts, Kept};
ghost use Rattle.visits.specs.Visits.{act_of, Visits};

use super::notes::{Body, Notes};
use super::tables::Tables;
use super::visit::{arrived, lands, shape_at, visit_branch};
use check_operands::group::{BR, CALL, CASTS, LDSFLD, group};
use check_operands::operand::{
    INSTANCE, ONE_FOR_ALL, class_row, field_row, method_row, undeclared,
};
use check_operands::step::{plain, step};
use code::insn::Insn;
use loaded::Loaded;
use loaded::columns::{METHOD, RETURN};
use shapes::fault::FaultKind;

// One instruction.
pub fn visit(
    loaded: &Loaded,
    tables: &Tables,
    body: Body,
    notes: &mut Notes,
    at: usize,
    i: Insn,
) -> Result<(), FaultKind>
    requires made_below { notes.old.pool.made < 2048 }
    requires row_below { body.row < 129 }
    requires at_below { at < body.size }
    requires size_at_most { body.size ≤ 1024 }
    ensures starts_stay { notes.new.starts ≡ notes.old.starts }
    ensures made_at_most { notes.new.pool.made ≤ notes.old.pool.made + 1 }
    ensures visits { ((M : Module) (m : Method) (all : List (Site Ins)) (F : Shapes) → tables.now.groups ≡ group_table →
        Held M m loaded.now.counts body.row body.max loaded.now.parents loaded.now.fields loaded.now.methods →
        length m.code ≡ body.size → Starts all body.size notes.old.starts →
        Fine notes.old.pool → Kept notes.old.pool body.size F notes.old.found →
        Visits M m all F at i body.size result notes.new.found notes.new.pool) }
{
    let g = group(&tables.groups, i.op);
    let s = shape_at(&mut notes.found, at);
    let op = i.op as usize;
    if g < CALL {
        let after = plain(
            &mut notes.pool,
            &loaded.parents,
            &loaded.methods,
            s,
            body.row,
            loaded.methods[body.row * METHOD + RETURN],
            body.max,
            g,
            op,
            i.operand as usize,
        );
        return arrived(&notes.pool, &mut notes.found, body.size, i, g, after);
    }
    if g < BR {
        let after = step(
            &mut notes.pool,
            loaded.counts,
            &loaded.parents,
            &loaded.fields,
            &loaded.methods,
            s,
            body.max,
            g,
            i.operand,
        );
        return arrived(&notes.pool, &mut notes.found, body.size, i, g, after);
    }
    visit_branch(
        &notes.starts,
        &notes.pool,
        &mut notes.found,
        body.size,
        s,
        g,
        op,
        i.next,
        i.operand,
    )
}

// Whether an instruction has an operand fault, or a target that starts no instruction.
pub fn refused(
    loaded: &Loaded,
    tables: &Tables,
    row: usize,
    starts: &[u8; 1024],
    size: usize,
    i: Insn,
) -> bool
    requires row_below { row < 129 }
    requires size_at_most { size ≤ 1024 }
    ensures { (M : Module) (m : Method) (all : List (Site Ins)) (max : ℕ) (parents : List ℕ) → tables.now.groups ≡ group_table →
        Held M m loaded.now.counts row max parents loaded.now.fields loaded.now.methods → length m.code ≡ size →
        Starts all size starts.now → result ≡ is_none (act_of M m all (ins_of i)) }
{
    let g = group(&tables.groups, i.op);
    let op = i.op as usize;
    let n = i.operand;
    if BR <= g {
        return lands(starts, size, op, i.next, n).is_none();
    }
    if g < CALL {
        return undeclared(&loaded.methods, row, g, op, n as usize);
    }
    if g < CASTS {
        return method_row(loaded.counts.methods, &loaded.methods, n, g - CALL).is_none();
    }
    if g == CASTS {
        return class_row(loaded.counts.classes, n).is_none();
    }
    if g < LDSFLD {
        return field_row(loaded.counts.fields, &loaded.fields, n, INSTANCE).is_none();
    }
    field_row(loaded.counts.fields, &loaded.fields, n, ONE_FOR_ALL).is_none()
}

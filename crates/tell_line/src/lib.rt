// The line of `tell`: the shape that the check found before an instruction, in numbers.
#![tactic(auto)]

ghost use Rattle.std.specs.Prelude.{◌≡◌, ◌≤◌, length};
ghost use Rattle.std.proofs.lemmas.List.Edits.{sets};
ghost use Rattle.model.specs.Check.{shape_found};
ghost use Rattle.line.specs.Append.{appended};
ghost use Rattle.loitsupar.specs.Public.{told_of};
ghost use Rattle.tell_line.specs.Shapes.{spaced as spaced_of, seen as seen_of, line_of};

use checker::tell::Found;
use code::part::part;
use line::text::Text;
use loaded::Fault;
use loitsupar::numbered::numbered;
use loitsupar::telling::tell;

// A space and a number, for each.
fn spaced(text: &mut Text, numbers: &[u8])
    ensures { text.new ≡ appended text.old (spaced_of numbers.now) }
{
    for n in numbers {
        text.put(b' ');
        text.decimal(*n as u64);
    }
}

// The types of a shape.
fn types_of(found: &Found) -> [u8; 32]
    ensures { (result ≡ found.now.types) × (length result ≡ 32) }
{
    found.types
}

// Whether an instruction starts there, its depth and the types, the bottom first: nothing behind a fault.
fn seen(told: &Result<Option<Found>, Fault>) -> (bool, usize, [u8; 32])
    ensures is { result ≡ seen_of told.now }
    ensures long { length (seen_of told.now).2 ≡ 32 }
{
    match told {
        Ok(shape) => match shape {
            Some(found) => (true, found.depth, types_of(found)),
            None => (false, 0, [0u8; 32]),
        },
        Err(_) => (false, 0, [0u8; 32]),
    }
}

// The fault, whether an instruction starts there, the depth, and as many types as that, the bottom first.
fn write_told(text: &mut Text, told: &Result<Option<Found>, Fault>)
    ensures text { text.new ≡ appended text.old (line_of told.now) }
    ensures long { length (seen_of told.now).2 ≡ 32 }
{
    let fault = numbered(told);
    let (starts, depth, types) = seen(told);
    text.number(fault.number as usize);
    text.number(fault.method);
    text.number(fault.offset);
    text.number(starts as usize);
    text.decimal(depth as u64);
    spaced(text, part(&types, 0, depth));
    text.put(b'\n');
}

// The line for an offset of the method at a row, from the start of `out` on, and how long it is; what lay behind it stays.
pub fn line(tables: &[u8], code: &[u8], row: usize, offset: usize, out: &mut [u8; 1024]) -> usize
    ensures out_after { out.new ≡ sets out.old 0 (line_of (told_of (shape_found tables.now code.now row offset))) }
    ensures size { result ≡ length (line_of (told_of (shape_found tables.now code.now row offset))) }
    ensures room { result ≤ 1024 }
{
    let told = tell(tables, code, row, offset);
    let mut text = Text::up_to(out, 0);
    write_told(&mut text, &told);
    text.end()
}

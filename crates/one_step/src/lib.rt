// One step that stays in its frame, by its opcode; an opcode that changes the frame is named.
#![tactic(auto)]

ghost use Rattle.state.specs.View.{Work};
ghost use Rattle.state.specs.Work.{Tables};
ghost use Rattle.state.specs.Meets.{Stays, Topped, Few, Placed};
ghost use Rattle.state.specs.Steps.{top_after, led};
ghost use Rattle.in_frame.specs.Tries.{Reads};
ghost use Rattle.fields.specs.Members.{on_member};
ghost use Rattle.one_step.specs.Told.{RestRanges, Lends, Tells};

use fields::casts::cast;
use fields::members::{object_load, object_store, static_load, static_store};
use in_frame::branches::{far, near};
use in_frame::stack::{dup, ldc_i4, ldc_i4_s, ldc_i8, ldc_r8, pop, push};
use in_frame::variables::{ldarg, ldarg_s, ldloc, ldloc_s, starg_s, stloc, stloc_s};
use operator_steps::operations::compared;
use operators::codes::{Binary, Jump, Number, Relation, Shift, Unary, Whole};
use operators::stacked::{binary, unary};
use state::ending::{Ending, ends};
use state::{Leave, Stay, Step};

// Every byte leads to its arm at once. Bytes that are no opcode have three arms, the even ones, the odd ones and the last, since numbers in a row are tested as a
// range.
pub fn step(
    y: Stay,
    part: &[u8],
    op: u8,
    at: usize,
    sp: usize,
    cells: &mut [u64; 2048],
    kinds: &mut [u8; 2048],
    marks: &mut [u8; 33],
    classes: &[u8; 256],
    heap: &mut [u64; 2048],
    statics: &mut [u64; 64],
    methods: &[u8; 4128],
    variables: &[u8; 4128],
    fields: &[u8; 516],
    initialisers: &[u8; 33],
    ancestors: &[u64; 33],
    class_count: usize,
    field_count: usize,
) -> Step
    requires stays { Stays y }
    requires topped { Topped y sp }
    requires reads { Reads at part.now op }
    requires few { Few 3 kinds.old }
    requires ranges { Placed classes.now × RestRanges class_count field_count fields.now initialisers.now }
    ensures topped { Topped y (top_after result sp) }
    ensures tells { ((P : Tables) (c : Work) → Lends P class_count field_count methods.now variables.now fields.now
        initialisers.now ancestors.now →
        Tells P part.now y result
        (on_member c at sp cells.old kinds.old marks.old classes.now heap.old statics.old)
        (led result (on_member c at sp cells.new kinds.new marks.new classes.now heap.new statics.new))) }
{
    let next = at + 1;
    match op {
        0x00 => Step::On { at: next, sp: sp },
        0x02 => ldarg(y, at, sp, cells, kinds, variables, 0, next),
        0x03 => ldarg(y, at, sp, cells, kinds, variables, 1, next),
        0x04 => ldarg(y, at, sp, cells, kinds, variables, 2, next),
        0x05 => ldarg(y, at, sp, cells, kinds, variables, 3, next),
        0x06 => ldloc(y, at, sp, cells, kinds, variables, 0, next),
        0x07 => ldloc(y, at, sp, cells, kinds, variables, 1, next),
        0x08 => ldloc(y, at, sp, cells, kinds, variables, 2, next),
        0x09 => ldloc(y, at, sp, cells, kinds, variables, 3, next),
        0x0A => stloc(
            y, at, sp, cells, kinds, methods, ancestors, classes, 0, next,
        ),
        0x0B => stloc(
            y, at, sp, cells, kinds, methods, ancestors, classes, 1, next,
        ),
        0x0C => stloc(
            y, at, sp, cells, kinds, methods, ancestors, classes, 2, next,
        ),
        0x0D => stloc(
            y, at, sp, cells, kinds, methods, ancestors, classes, 3, next,
        ),
        0x0E => ldarg_s(y, part, at, sp, cells, kinds, variables),
        0x10 => starg_s(y, part, at, sp, cells, kinds, methods, ancestors, classes),
        0x11 => ldloc_s(y, part, at, sp, cells, kinds, variables),
        0x13 => stloc_s(y, part, at, sp, cells, kinds, methods, ancestors, classes),
        0x14 => push(y, at, sp, cells, kinds, 0, 0, next),
        0x15 => push(y, at, sp, cells, kinds, 1, 0xFFFFFFFF, next),
        0x16 => push(y, at, sp, cells, kinds, 1, 0, next),
        0x17 => push(y, at, sp, cells, kinds, 1, 1, next),
        0x18 => push(y, at, sp, cells, kinds, 1, 2, next),
        0x19 => push(y, at, sp, cells, kinds, 1, 3, next),
        0x1A => push(y, at, sp, cells, kinds, 1, 4, next),
        0x1B => push(y, at, sp, cells, kinds, 1, 5, next),
        0x1C => push(y, at, sp, cells, kinds, 1, 6, next),
        0x1D => push(y, at, sp, cells, kinds, 1, 7, next),
        0x1E => push(y, at, sp, cells, kinds, 1, 8, next),
        0x1F => ldc_i4_s(y, part, at, sp, cells, kinds),
        0x20 => ldc_i4(y, part, at, sp, cells, kinds),
        0x21 => ldc_i8(y, part, at, sp, cells, kinds),
        0x23 => ldc_r8(y, part, at, sp, cells, kinds),
        0x25 => dup(y, at, sp, cells, kinds, next),
        0x26 => pop(y, at, sp, next),
        0x28 => Step::Leaves(Leave::Call),
        0x2A => Step::Leaves(Leave::Ret),
        0x2B => near(y, part, at, sp, cells, kinds, Jump::Always),
        0x2C => near(y, part, at, sp, cells, kinds, Jump::IfFalse),
        0x2D => near(y, part, at, sp, cells, kinds, Jump::IfTrue),
        0x2E => near(y, part, at, sp, cells, kinds, Jump::When(Relation::Eq)),
        0x2F => near(y, part, at, sp, cells, kinds, Jump::When(Relation::Ge)),
        0x30 => near(y, part, at, sp, cells, kinds, Jump::When(Relation::Gt)),
        0x31 => near(y, part, at, sp, cells, kinds, Jump::When(Relation::Le)),
        0x32 => near(y, part, at, sp, cells, kinds, Jump::When(Relation::Lt)),
        0x33 => near(y, part, at, sp, cells, kinds, Jump::When(Relation::Ne)),
        0x34 => near(y, part, at, sp, cells, kinds, Jump::When(Relation::GeUn)),
        0x35 => near(y, part, at, sp, cells, kinds, Jump::When(Relation::GtUn)),
        0x36 => near(y, part, at, sp, cells, kinds, Jump::When(Relation::LeUn)),
        0x37 => near(y, part, at, sp, cells, kinds, Jump::When(Relation::LtUn)),
        0x38 => far(y, part, at, sp, cells, kinds, Jump::Always),
        0x39 => far(y, part, at, sp, cells, kinds, Jump::IfFalse),
        0x3A => far(y, part, at, sp, cells, kinds, Jump::IfTrue),
        0x3B => far(y, part, at, sp, cells, kinds, Jump::When(Relation::Eq)),
        0x3C => far(y, part, at, sp, cells, kinds, Jump::When(Relation::Ge)),
        0x3D => far(y, part, at, sp, cells, kinds, Jump::When(Relation::Gt)),
        0x3E => far(y, part, at, sp, cells, kinds, Jump::When(Relation::Le)),
        0x3F => far(y, part, at, sp, cells, kinds, Jump::When(Relation::Lt)),
        0x40 => far(y, part, at, sp, cells, kinds, Jump::When(Relation::Ne)),
        0x41 => far(y, part, at, sp, cells, kinds, Jump::When(Relation::GeUn)),
        0x42 => far(y, part, at, sp, cells, kinds, Jump::When(Relation::GtUn)),
        0x43 => far(y, part, at, sp, cells, kinds, Jump::When(Relation::LeUn)),
        0x44 => far(y, part, at, sp, cells, kinds, Jump::When(Relation::LtUn)),
        0x58 => binary(y, at, sp, cells, kinds, Binary::Number(Number::Add), next),
        0x59 => binary(y, at, sp, cells, kinds, Binary::Number(Number::Sub), next),
        0x5A => binary(y, at, sp, cells, kinds, Binary::Number(Number::Mul), next),
        0x5B => binary(y, at, sp, cells, kinds, Binary::Number(Number::Div), next),
        0x5C => binary(y, at, sp, cells, kinds, Binary::Whole(Whole::DivUn), next),
        0x5D => binary(y, at, sp, cells, kinds, Binary::Whole(Whole::Rem), next),
        0x5E => binary(y, at, sp, cells, kinds, Binary::Whole(Whole::RemUn), next),
        0x5F => binary(y, at, sp, cells, kinds, Binary::Whole(Whole::And), next),
        0x60 => binary(y, at, sp, cells, kinds, Binary::Whole(Whole::Or), next),
        0x61 => binary(y, at, sp, cells, kinds, Binary::Whole(Whole::Xor), next),
        0x62 => binary(y, at, sp, cells, kinds, Binary::Shift(Shift::Shl), next),
        0x63 => binary(y, at, sp, cells, kinds, Binary::Shift(Shift::Shr), next),
        0x64 => binary(y, at, sp, cells, kinds, Binary::Shift(Shift::ShrUn), next),
        0x65 => unary(y, at, sp, cells, kinds, Unary::Neg, next),
        0x66 => unary(y, at, sp, cells, kinds, Unary::Not, next),
        0x69 => unary(y, at, sp, cells, kinds, Unary::ConvI4, next),
        0x6A => unary(y, at, sp, cells, kinds, Unary::ConvI8, next),
        0x6C => unary(y, at, sp, cells, kinds, Unary::ConvR8, next),
        0x6F => Step::Leaves(Leave::Callvirt),
        0x73 => Step::Leaves(Leave::Newobj),
        0x74 => cast(
            false,
            y,
            part,
            at,
            sp,
            cells,
            kinds,
            classes,
            ancestors,
            class_count,
        ),
        0x75 => cast(
            true,
            y,
            part,
            at,
            sp,
            cells,
            kinds,
            classes,
            ancestors,
            class_count,
        ),
        0x7B => object_load(
            y,
            part,
            at,
            sp,
            cells,
            kinds,
            marks,
            classes,
            heap,
            fields,
            initialisers,
            ancestors,
            field_count,
        ),
        0x7D => object_store(
            y,
            part,
            at,
            sp,
            cells,
            kinds,
            marks,
            classes,
            heap,
            fields,
            initialisers,
            ancestors,
            field_count,
        ),
        0x7E => static_load(
            y,
            part,
            at,
            sp,
            cells,
            kinds,
            marks,
            classes,
            statics,
            fields,
            initialisers,
            ancestors,
            field_count,
        ),
        0x80 => static_store(
            y,
            part,
            at,
            sp,
            cells,
            kinds,
            marks,
            classes,
            statics,
            fields,
            initialisers,
            ancestors,
            field_count,
        ),
        0xD6 => binary(y, at, sp, cells, kinds, Binary::Whole(Whole::AddOvf), next),
        0xD8 => binary(y, at, sp, cells, kinds, Binary::Whole(Whole::MulOvf), next),
        0xDA => binary(y, at, sp, cells, kinds, Binary::Whole(Whole::SubOvf), next),
        0xFE => compared(y, part, at, sp, cells, kinds),
        0x12
        | 0x22
        | 0x24
        | 0x46
        | 0x48
        | 0x4A
        | 0x4C
        | 0x4E
        | 0x50
        | 0x52
        | 0x54
        | 0x56
        | 0x68
        | 0x6E
        | 0x70
        | 0x72
        | 0x76
        | 0x78
        | 0x7A
        | 0x7C
        | 0x82
        | 0x84
        | 0x86
        | 0x88
        | 0x8A
        | 0x8C
        | 0x8E
        | 0x90
        | 0x92
        | 0x94
        | 0x96
        | 0x98
        | 0x9A
        | 0x9C
        | 0x9E
        | 0xA0
        | 0xA2
        | 0xA4
        | 0xA6
        | 0xA8
        | 0xAA
        | 0xAC
        | 0xAE
        | 0xB0
        | 0xB2
        | 0xB4
        | 0xB6
        | 0xB8
        | 0xBA
        | 0xBC
        | 0xBE
        | 0xC0
        | 0xC2
        | 0xC4
        | 0xC6
        | 0xC8
        | 0xCA
        | 0xCC
        | 0xCE
        | 0xD0
        | 0xD2
        | 0xD4
        | 0xDC
        | 0xDE
        | 0xE0
        | 0xE2
        | 0xE4
        | 0xE6
        | 0xE8
        | 0xEA
        | 0xEC
        | 0xEE
        | 0xF0
        | 0xF2
        | 0xF4
        | 0xF6
        | 0xF8
        | 0xFA
        | 0xFC => ends(Ending::Undecodable),
        0x01
        | 0x0F
        | 0x27
        | 0x29
        | 0x45
        | 0x47
        | 0x49
        | 0x4B
        | 0x4D
        | 0x4F
        | 0x51
        | 0x53
        | 0x55
        | 0x57
        | 0x67
        | 0x6B
        | 0x6D
        | 0x71
        | 0x77
        | 0x79
        | 0x7F
        | 0x81
        | 0x83
        | 0x85
        | 0x87
        | 0x89
        | 0x8B
        | 0x8D
        | 0x8F
        | 0x91
        | 0x93
        | 0x95
        | 0x97
        | 0x99
        | 0x9B
        | 0x9D
        | 0x9F
        | 0xA1
        | 0xA3
        | 0xA5
        | 0xA7
        | 0xA9
        | 0xAB
        | 0xAD
        | 0xAF
        | 0xB1
        | 0xB3
        | 0xB5
        | 0xB7
        | 0xB9
        | 0xBB
        | 0xBD
        | 0xBF
        | 0xC1
        | 0xC3
        | 0xC5
        | 0xC7
        | 0xC9
        | 0xCB
        | 0xCD
        | 0xCF
        | 0xD1
        | 0xD3
        | 0xD5
        | 0xD7
        | 0xD9
        | 0xDB
        | 0xDD
        | 0xDF
        | 0xE1
        | 0xE3
        | 0xE5
        | 0xE7
        | 0xE9
        | 0xEB
        | 0xED
        | 0xEF
        | 0xF1
        | 0xF3
        | 0xF5
        | 0xF7
        | 0xF9
        | 0xFB
        | 0xFD => ends(Ending::Undecodable),
        _ => ends(Ending::Undecodable),
    }
}

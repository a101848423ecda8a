// Groups of instructions that the check treats alike.

ghost use Rattle.std.specs.Prelude.{◌≡◌};
ghost use Rattle.check_operands.specs.Groups.{groups as group_table, group_of};

// The group of each first byte; some bytes stand at the right in hex:
// 0 nop, 1 pop, 2 dup, 3 ret, 4 null, 5 int32, 6 int64 and 7 F constants, 8 ldarg.0 to 3, 9 ldarg, 10 starg, 11 ldloc.0 to 3, 12 stloc.0 to 3,
// 13 ldloc, 14 stloc, 15 numbers, 16 integers, 17 shifts, 18 ceq, 19 neg, 20 not, 21 conv.i4, 22 conv.i8, 23 conv.r8, 24 other comparisons,
// 25 call, 26 callvirt, 27 newobj, 28 castclass and isinst, 29 ldfld, 30 stfld, 31 ldsfld, 32 stsfld,
// 33 br, 34 brtrue and brfalse, 35 beq and bne.un, 36 the other branches.
const GROUPS: [u8; 256] = [
    0, // 00
    0, 8, 8, 8, 8, 11, 11, 11, 11, 12, 12, 12, 12, 9, 0, 10, // 10
    13, 0, 14, 4, 5, 5, 5, 5, 5, 5, 5, 5, 5, 5, 5, 5, // 20
    6, 0, 7, 0, 2, 1, 0, 25, 0, 3, 33, 34, 34, 35, 36, 36, // 30
    36, 36, 35, 36, 36, 36, 36, 33, 34, 34, 35, 36, 36, 36, 36, 35, // 40
    36, 36, 36, 36, 0, 0, 0, 0, 0, 0, 0, 0, 0, 0, 0, 0, // 50
    0, 0, 0, 0, 0, 0, 0, 15, 15, 15, 15, 16, 16, 16, 16, 16, // 60
    16, 17, 17, 17, 19, 20, 0, 0, 21, 22, 0, 23, 0, 0, 26, 0, // 70
    0, 0, 27, 28, 28, 0, 0, 0, 0, 0, 29, 0, 30, 31, 0, 32, // 80
    0, 0, 0, 0, 0, 0, 0, 0, 0, 0, 0, 0, 0, 0, 0, 0, // 90
    0, 0, 0, 0, 0, 0, 0, 0, 0, 0, 0, 0, 0, 0, 0, 0, // A0
    0, 0, 0, 0, 0, 0, 0, 0, 0, 0, 0, 0, 0, 0, 0, 0, // B0
    0, 0, 0, 0, 0, 0, 0, 0, 0, 0, 0, 0, 0, 0, 0, 0, // C0
    0, 0, 0, 0, 0, 0, 0, 0, 0, 0, 0, 0, 0, 0, 0, 0, // D0
    0, 0, 0, 0, 0, 16, 0, 16, 0, 16, 0, 0, 0, 0, 0, 0, // E0
    0, 0, 0, 0, 0, 0, 0, 0, 0, 0, 0, 0, 0, 0, 0, 0, // F0
    0, 0, 0, 0, 0, 0, 0, 0, 0, 0, 0, 0, 0, 0, 0,
];

// Where a test asks for a group or a row of groups.
pub const RET: u8 = 3;

pub const CEQ: u8 = 18;

pub const COMPARISONS: u8 = 24;

pub const CALL: u8 = 25;

pub const NEWOBJ: u8 = 27;

pub const CASTS: u8 = 28;

pub const LDFLD: u8 = 29;

pub const LDSFLD: u8 = 31;

pub const BR: u8 = 33;

pub const BR_TEST: u8 = 34;

pub const BR_EQUAL: u8 = 35;

// The table, to be lent: an indexed constant array is written anew at each use.
pub fn table() -> [u8; 256]
    ensures { result ≡ group_table }
{
    GROUPS
}

// The group of an opcode, by the table.
pub fn group(groups: &[u8; 256], op: u16) -> u8
    ensures { groups.now ≡ group_table → result ≡ group_of op }
{
    if op < 256 {
        let n = op as usize;
        return groups[n];
    }
    if op == 0xFE01 {
        return CEQ;
    }
    if op < 0xFE02 {
        return 0;
    }
    if op < 0xFE06 {
        return COMPARISONS;
    }
    0
}

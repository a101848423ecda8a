// An instruction as it is read.
// op is the first byte, or FE00 and the byte after FE; operand is the bytes of its operand as a number, 0 where it has none.
#[derive(Clone, Copy)]
pub struct Insn {
    pub op: u16,
    pub operand: u64,
    pub next: usize,
}

// Everything that a core holds, in fixed memory: a core needs no heap.
use word::Flags;

#[derive(Clone, Copy, Debug, Default, PartialEq, Eq)]
pub struct Control {
    // Thread mode is unprivileged
    pub npriv: bool,
    // Thread mode uses PSP
    pub spsel: bool,
}

// Sets of exception numbers, bit n for exception n, and the rank of each.
#[derive(Clone, Copy, Debug, Default, PartialEq, Eq)]
pub struct Exceptions {
    pub pending: u64,
    pub active: u64,
    pub armed: u64,
    pub ranks: [u8; 48],
}

#[derive(Clone, Copy, Debug, Default, PartialEq, Eq)]
pub struct Registers {
    // R0 to R12
    pub general: [u32; 13],
    pub lr: u32,
    pub msp: u32,
    pub psp: u32,
    pub pc: u32,
    pub flags: Flags,
    // EPSR.T
    pub thumb: bool,
    pub primask: bool,
    pub control: Control,
    // IPSR, a number as the register has it: that of the current exception, 0 in Thread mode
    pub current: u8,
    pub exceptions: Exceptions,
    pub locked: bool,
}

// What an entry stacks and a return takes back, in the order of its words.
#[derive(Clone, Copy, Debug, PartialEq, Eq)]
pub struct Frame {
    pub r0: u32,
    pub r1: u32,
    pub r2: u32,
    pub r3: u32,
    pub r12: u32,
    pub lr: u32,
    pub return_address: u32,
    // xPSR, with the alignment of the stack in bit 9
    pub status: u32,
}

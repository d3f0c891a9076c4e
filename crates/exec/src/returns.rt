// Returning from an exception.
ghost use Rattle.std.specs.Prelude.{◌≡◌, true, not};
ghost use Rattle.bus.specs.Made.{Makes};
ghost use Rattle.arch.specs.Registers.{right_if};
ghost use Rattle.arch.specs.Return.{core_fault, to_thread, to_process, returnable, frame_pointer, forced_thread, number_in, consistent, unstacked, restacked, restored, acceptable as is_acceptable, read_four, read_upper, read_frame, verdict_on, unstack as unstack_of, exception_return};
ghost use Rattle.arch.specs.Status.{word_flags};
ghost use Rattle.exec.specs.Outcome.{Executes, returned_to, KeptAt};

use arch::{Frame, Registers};
use bus::{Bus, Cause, Fault, Right, Width};
use word::Flags;

// A fault of the core itself; a function, since `bus`, which declares `Fault`, knows no registers.
pub fn fault(cause: Cause, r: &Registers) -> Fault
    ensures { result ≡ core_fault cause r.now }
{
    Fault {
        cause,
        address: r.pc,
        kind: 0,
        hops: 0,
    }
}

// Whether EXC_RETURN fits the core: the mode it names, and how many exceptions are active.
fn may_return(r: &Registers, exc: u32) -> bool
    ensures { result ≡ returnable r.now exc }
{
    let target = word::field(exc, 0, 4);
    let alone = r.exceptions.active.count_ones() == 1;
    word::field(exc, 4, 24) == 0xff_ffff
        && word::has(r.exceptions.active, u32::from(r.current))
        && ((target == 1 && !alone) || ((target == 9 || target == 13) && alone))
}

fn read_four<B: Bus>(bus: &mut B, right: Right, x: u32) -> Result<[u32; 4], Fault>
    ensures { Makes B.Bus bus.old bus.new (read_four right x) result }
{
    let a = bus.read(Width::Word, right, x)?;
    let b = bus.read(Width::Word, right, x.wrapping_add(4))?;
    let c = bus.read(Width::Word, right, x.wrapping_add(8))?;
    let d = bus.read(Width::Word, right, x.wrapping_add(12))?;
    Ok([a, b, c, d])
}

// A frame whose lower words are read, with its upper ones at `x`.
fn read_upper<B: Bus>(bus: &mut B, right: Right, lower: [u32; 4], x: u32) -> Result<Frame, Fault>
    ensures { Makes B.Bus bus.old bus.new (read_upper right lower x) result }
{
    let [r12, lr, return_address, status] = read_four(bus, right, x)?;
    let [r0, r1, r2, r3] = lower;
    Ok(Frame {
        r0,
        r1,
        r2,
        r3,
        r12,
        lr,
        return_address,
        status,
    })
}

// The frame at `x`, all of its words before any is used.
fn read_frame<B: Bus>(bus: &mut B, right: Right, x: u32) -> Result<Frame, Fault>
    ensures { Makes B.Bus bus.old bus.new (read_frame right x) result }
{
    let lower = read_four(bus, right, x)?;
    read_upper(bus, right, lower, x.wrapping_add(16))
}

pub(crate) fn flags_of(status: u32) -> Flags
    ensures { result ≡ word_flags status }
{
    Flags {
        n: word::bit(status, 31),
        z: word::bit(status, 30),
        c: word::bit(status, 29),
        v: word::bit(status, 28),
    }
}

// The stack pointer above a frame.
fn above(frame: u32, status: u32) -> u32
    ensures { result ≡ unstacked frame status }
{
    let above = frame.wrapping_add(32);
    if word::bit(status, 9) && !word::bit(above, 2) {
        above + 4
    } else {
        above
    }
}

// Whether the number in a frame fits the mode returned to.
fn fits_mode(r: &Registers, exc: u32, status: u32) -> bool
    ensures { result ≡ consistent r.now exc status }
{
    let number = number_after(r, exc, status);
    if to_thread(exc) {
        return number == 0;
    }
    let others = word::without(r.exceptions.active, u32::from(r.current));
    number != 0 && word::has(others, u32::from(number))
}

// EXC_RETURN stays a word: the architecture's definitions read its low bits, and an enum of the three targets would be a
// second form of it in each contract
fn to_thread(exc: u32) -> bool
    ensures { result ≡ to_thread exc }
{
    word::field(exc, 0, 4) != 1
}

fn to_process(exc: u32) -> bool
    ensures { result ≡ to_process exc }
{
    word::field(exc, 0, 4) == 13
}

// Whether the return is to unprivileged Thread mode.
fn forces_thread(r: &Registers, exc: u32) -> bool
    ensures { result ≡ forced_thread r.now exc }
{
    to_thread(exc) && r.control.npriv
}

fn number_after(r: &Registers, exc: u32, status: u32) -> u8
    ensures { result ≡ number_in r.now exc status }
{
    if forces_thread(r, exc) {
        return 0;
    }
    word::field(status, 0, 6) as u8
}

fn acceptable(r: &Registers, exc: u32, frame: &Frame) -> bool
    ensures { result ≡ is_acceptable r.now exc frame.now }
{
    frame.return_address % 2 == 0 && fits_mode(r, exc, frame.status)
}

fn frame_pointer(r: &Registers, exc: u32) -> u32
    ensures { result ≡ frame_pointer r.now exc }
{
    if to_process(exc) { r.psp } else { r.msp }
}

// The stack pointer of the mode returned to, above the frame.
fn set_stack_above(r: &mut Registers, exc: u32, status: u32)
    ensures { r.new ≡ restacked r.old exc status }
{
    let stack = above(frame_pointer(r, exc), status) / 4 * 4;
    if to_process(exc) {
        r.psp = stack;
    } else {
        r.msp = stack;
    }
    r.control.spsel = to_process(exc);
}

fn restore(r: &mut Registers, exc: u32, frame: Frame)
    ensures { r.new ≡ restored r.old exc frame }
{
    let number = number_after(r, exc, frame.status);
    r.exceptions.active = word::without(r.exceptions.active, u32::from(r.current));
    r.current = number;
    set_stack_above(r, exc, frame.status);
    r.general[0] = frame.r0;
    r.general[1] = frame.r1;
    r.general[2] = frame.r2;
    r.general[3] = frame.r3;
    r.general[12] = frame.r12;
    r.lr = frame.lr;
    r.pc = frame.return_address;
    r.flags = flags_of(frame.status);
    r.thumb = word::bit(frame.status, 24);
}

// Takes a frame, or refuses it.
fn take_frame(r: &mut Registers, exc: u32, frame: Frame) -> Result<(), Fault>
    ensures value { returned_to result r.new ≡ verdict_on r.old exc frame }
    ensures kept { KeptAt result r.old r.new }
{
    if !acceptable(r, exc, &frame) {
        return Err(fault(Cause::BadReturn, r));
    }
    restore(r, exc, frame);
    Ok(())
}

fn frame_right(r: &Registers, exc: u32) -> Right
    ensures { result ≡ right_if (not (forced_thread r.now exc)) }
{
    if forces_thread(r, exc) {
        Right::Unprivileged
    } else {
        Right::Privileged
    }
}

fn unstack<B: Bus>(r: &mut Registers, bus: &mut B, exc: u32) -> Result<(), Fault>
    ensures { Executes B.Bus bus.old bus.new r.old r.new (unstack_of true r.old exc) returned_to result }
{
    let frame = read_frame(bus, frame_right(r, exc), frame_pointer(r, exc))?;
    take_frame(r, exc, frame)
}

pub fn exception_return<B: Bus>(r: &mut Registers, bus: &mut B, exc: u32) -> Result<(), Fault>
    ensures { Executes B.Bus bus.old bus.new r.old r.new (exception_return r.old exc) returned_to result }
{
    if !may_return(r, exc) {
        return Err(fault(Cause::BadReturn, r));
    }
    unstack(r, bus, exc)
}

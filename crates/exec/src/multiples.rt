// Loads and stores of several registers.
ghost use Rattle.std.specs.Prelude.{◌≡◌, ◌+◌, ◌*◌, ◌≤◌};
ghost use Rattle.bus.specs.Made.{Makes};
ghost use Rattle.word.specs.Sums.{one_if};
ghost use Rattle.arch.specs.Registers.{minus, sp};
ghost use Rattle.arch.specs.Transfers.{registers_of, store_registers, load_registers, span as span_of, pop_pc_with, multiple as multiple_of};
ghost use Rattle.exec.specs.Lists.{store_next, load_next, loaded_to, link_pushed};
ghost use Rattle.exec.specs.Outcome.{Executes, outcome, returned_to};

use crate::branches::bx_write_pc;
use crate::flow::Flow;
use arch::Registers;
use bus::{Bus, Fault, Right, Width};
use thumb::instructions::Multiple;

// The bytes of the words of a list.
fn span(list: u8) -> u32
    ensures value { result ≡ span_of list }
    ensures bound { result ≤ 32 }
{
    4 * list.count_ones()
}

// Register `i` to the word at `x`, if it is in the list; the address after it. A store borrows the registers and a load
// changes them, so the two stand apart.
fn store_next<B: Bus>(r: &Registers, bus: &mut B, list: u8, i: u8, x: u32) -> Result<u32, Fault>
    ensures { Makes B.Bus bus.old bus.new (store_next r.now list i x) result }
{
    if !word::bit(u32::from(list), u32::from(i)) {
        return Ok(x);
    }
    bus.write(Width::Word, state::right(r), x, state::register(r, i))?;
    Ok(x.wrapping_add(4))
}

// The registers of the list to the words from `x` upward; the address after them.
fn store_registers<B: Bus>(r: &Registers, bus: &mut B, list: u8, x: u32) -> Result<u32, Fault>
    ensures { Makes B.Bus bus.old bus.new (store_registers r.now (registers_of list) x) result }
{
    // all eight and no filter: what becomes of one that is not in the list stands in the call
    let mut at = x;
    for i in 0..8u8 {
        at = store_next(r, bus, list, i, at)?;
    }
    Ok(at)
}

// Register `i` from the word at `x`, if it is in the list; the address after it.
fn load_next<B: Bus>(
    r: &mut Registers,
    bus: &mut B,
    right: Right,
    list: u8,
    i: u8,
    x: u32,
) -> Result<u32, Fault>
    ensures { Makes B.Bus bus.old bus.new (load_next right r.old list i x) (loaded_to result r.new) }
{
    if !word::bit(u32::from(list), u32::from(i)) {
        return Ok(x);
    }
    let value = bus.read(Width::Word, right, x)?;
    state::set_register(r, i, value);
    Ok(x.wrapping_add(4))
}

// The registers of the list from the words from `x` upward.
fn load_registers<B: Bus>(
    r: &mut Registers,
    bus: &mut B,
    right: Right,
    list: u8,
    x: u32,
) -> Result<(), Fault>
    ensures { Makes B.Bus bus.old bus.new (load_registers right r.old (registers_of list) x) (returned_to result r.new) }
{
    // all eight and no filter: what becomes of one that is not in the list stands in the call
    let mut at = x;
    for i in 0..8u8 {
        at = load_next(r, bus, right, list, i, at)?;
    }
    Ok(())
}

fn store_multiple<B: Bus>(r: &mut Registers, bus: &mut B, n: u8, list: u8) -> Result<Flow, Fault>
    ensures { Executes B.Bus bus.old bus.new r.old r.new (multiple_of (Multiple.Stm n list) r.old) outcome result }
{
    let base = state::register(r, n);
    store_registers(r, bus, list, base)?;
    state::set_register(r, n, base.wrapping_add(span(list)));
    state::move_on(r, 2);
    Ok(Flow::Ran)
}

// LDM, on a copy of the registers, so that a refused word leaves them.
fn load_multiple<B: Bus>(r: &mut Registers, bus: &mut B, n: u8, list: u8) -> Result<Flow, Fault>
    ensures { Executes B.Bus bus.old bus.new r.old r.new (multiple_of (Multiple.Ldm n list) r.old) outcome result }
{
    let base = state::register(r, n);
    let right = state::right(r);
    let mut loaded = *r;
    state::set_register(&mut loaded, n, base.wrapping_add(span(list)));
    load_registers(&mut loaded, bus, right, list, base)?;
    state::move_on(&mut loaded, 2);
    *r = loaded;
    Ok(Flow::Ran)
}

// LR to the word at `x`, where it is pushed.
fn push_link<B: Bus>(r: &Registers, bus: &mut B, lr: bool, x: u32) -> Result<(), Fault>
    ensures { Makes B.Bus bus.old bus.new (link_pushed lr r.now x) result }
{
    if lr {
        bus.write(Width::Word, state::right(r), x, r.lr)?;
    }
    Ok(())
}

// Where a push puts its lowest word.
fn push_base(r: &Registers, list: u8, lr: bool) -> u32
    ensures { result ≡ minus (sp r.now) (span_of list + 4 * one_if lr) }
{
    let bytes = if lr { span(list) + 4 } else { span(list) };
    state::stack_pointer(r).wrapping_sub(bytes)
}

fn push<B: Bus>(r: &mut Registers, bus: &mut B, list: u8, lr: bool) -> Result<Flow, Fault>
    ensures { Executes B.Bus bus.old bus.new r.old r.new (multiple_of (Multiple.Push list lr) r.old) outcome result }
{
    let base = push_base(r, list, lr);
    let top = store_registers(r, bus, list, base)?;
    push_link(r, bus, lr, top)?;
    state::set_stack_pointer(r, base);
    state::move_on(r, 2);
    Ok(Flow::Ran)
}

// PC from the word at `x`, where it is popped.
fn pop_pc<B: Bus>(
    r: &mut Registers,
    bus: &mut B,
    right: Right,
    pc: bool,
    x: u32,
) -> Result<Flow, Fault>
    ensures { Makes B.Bus bus.old bus.new (pop_pc_with pc right r.old x) (outcome result r.new) }
{
    if !pc {
        state::set_stack_pointer(r, x);
        state::move_on(r, 2);
        return Ok(Flow::Ran);
    }
    let target = bus.read(Width::Word, right, x)?;
    state::set_stack_pointer(r, x.wrapping_add(4));
    bx_write_pc(r, bus, target)
}

// POP, on a copy as well.
fn pop<B: Bus>(r: &mut Registers, bus: &mut B, list: u8, pc: bool) -> Result<Flow, Fault>
    ensures { Executes B.Bus bus.old bus.new r.old r.new (multiple_of (Multiple.Pop list pc) r.old) outcome result }
{
    let base = state::stack_pointer(r);
    let right = state::right(r);
    let mut popped = *r;
    load_registers(&mut popped, bus, right, list, base)?;
    let flow = pop_pc(&mut popped, bus, right, pc, base.wrapping_add(span(list)))?;
    *r = popped;
    Ok(flow)
}

pub fn multiple<B: Bus>(
    r: &mut Registers,
    bus: &mut B,
    instruction: Multiple,
) -> Result<Flow, Fault>
    ensures { Executes B.Bus bus.old bus.new r.old r.new (multiple_of instruction r.old) outcome result }
{
    match instruction {
        Multiple::Stm { n, list } => store_multiple(r, bus, n, list),
        Multiple::Ldm { n, list } => load_multiple(r, bus, n, list),
        Multiple::Push { list, lr } => push(r, bus, list, lr),
        Multiple::Pop { list, pc } => pop(r, bus, list, pc),
    }
}

// Loads and stores of one register.
ghost use Rattle.std.specs.Prelude.{◌≡◌, ◌*◌, ◌%◌, ◌^◌};
ghost use Rattle.bus.specs.Access.{size};
ghost use Rattle.word.specs.Extend.{sign_extend};
ghost use Rattle.arch.specs.Transfers.{address_of, loading, storing, transfer as transfer_of};
ghost use Rattle.exec.specs.Outcome.{Executes, outcome};

use crate::flow::Flow;
use arch::Registers;
use bus::{Bus, Fault, Width};
use thumb::instructions::{Address, Transfer};

pub fn address_of(r: &Registers, address: Address) -> u32
    ensures { result ≡ address_of address r.now }
{
    match address {
        Address::Indexed { n, m } => state::register(r, n).wrapping_add(state::register(r, m)),
        Address::Offset { n, imm } => state::register(r, n).wrapping_add(imm),
        Address::Literal { imm } => word::align(state::register(r, 15), 4).wrapping_add(imm),
    }
}

// The registers and the bus go as two loans: in a struct of both, each method would also promise that it still holds the
// same two, and reach them through one pointer more.
fn store<B: Bus>(
    r: &mut Registers,
    bus: &mut B,
    width: Width,
    t: u8,
    address: u32,
) -> Result<Flow, Fault>
    ensures { Executes B.Bus bus.old bus.new r.old r.new (storing width r.old t address) outcome result }
{
    bus.write(width, state::right(r), address, state::register(r, t))?;
    state::move_on(r, 2);
    Ok(Flow::Ran)
}

fn load<B: Bus>(
    r: &mut Registers,
    bus: &mut B,
    width: Width,
    t: u8,
    address: u32,
) -> Result<Flow, Fault>
    ensures { Executes B.Bus bus.old bus.new r.old r.new (loading width (λ v. v) r.old t address) outcome result }
{
    let value = bus.read(width, state::right(r), address)?;
    state::set_register(r, t, value);
    state::move_on(r, 2);
    Ok(Flow::Ran)
}

// A load of what is read, with its sign. One load with a closure for the sign would promise less:
// a closure's contract is a relation, and the definition takes a function.
fn load_signed<B: Bus>(
    r: &mut Registers,
    bus: &mut B,
    width: Width,
    t: u8,
    address: u32,
) -> Result<Flow, Fault>
    ensures { Executes B.Bus bus.old bus.new r.old r.new (loading width (λ v. sign_extend (8 * size width) 32 (v % 2 ^ (8 * size width))) r.old t address) outcome result }
{
    let value = bus.read(width, state::right(r), address)?;
    state::set_register(r, t, word::sign_extend(value, 8 * width.size()));
    state::move_on(r, 2);
    Ok(Flow::Ran)
}

pub fn transfer<B: Bus>(
    r: &mut Registers,
    bus: &mut B,
    operation: Transfer,
    t: u8,
    address: u32,
) -> Result<Flow, Fault>
    ensures { Executes B.Bus bus.old bus.new r.old r.new (transfer_of operation t address r.old) outcome result }
{
    match operation {
        Transfer::Str => store(r, bus, Width::Word, t, address),
        Transfer::Strh => store(r, bus, Width::Half, t, address),
        Transfer::Strb => store(r, bus, Width::Byte, t, address),
        Transfer::Ldrsb => load_signed(r, bus, Width::Byte, t, address),
        Transfer::Ldr => load(r, bus, Width::Word, t, address),
        Transfer::Ldrh => load(r, bus, Width::Half, t, address),
        Transfer::Ldrb => load(r, bus, Width::Byte, t, address),
        Transfer::Ldrsh => load_signed(r, bus, Width::Half, t, address),
    }
}

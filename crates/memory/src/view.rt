// Words of the memory, as the host sees and shows them.
ghost use Rattle.bus.specs.Made.{Leaves};

use crate::pile::PANEL_BASE;
use crate::trouble::Trouble;
use bus::{Bus, Fault, Right, Width};

// Prints lines of four words each, with the address of the first.
pub fn print_words<B: Bus>(
    rt: &HostRuntime,
    bus: &mut B,
    address: u32,
    lines: u32,
) -> Result<(), Trouble>
    ensures leaves { Leaves B.Bus bus.old bus.new }
{
    for line in 0..lines {
        let first = address.wrapping_add(line.wrapping_mul(16));
        print!(rt; "  0x{first:08x} ")?;
        print_four(rt, bus, first)?;
    }
    Ok(())
}

// Prints four words as they are read, each after a blank, and ends the line.
fn print_four<B: Bus>(rt: &HostRuntime, bus: &mut B, address: u32) -> Result<(), Trouble>
    ensures leaves { Leaves B.Bus bus.old bus.new }
{
    for offset in [0, 4, 8, 12] {
        let word = bus.read(Width::Word, Right::Privileged, address.wrapping_add(offset))?;
        print!(rt; " 0x{word:08x}")?;
    }
    println!(rt)?;
    Ok(())
}

// Prints the panel's sixteen words, four to a line, with the number of the first. A line is printed whole, by one call.
pub fn print_panel<B: Bus>(rt: &HostRuntime, bus: &mut B) -> Result<(), Trouble>
    ensures leaves { Leaves B.Bus bus.old bus.new }
{
    for line in 0..4u32 {
        let first = 4 * line;
        let [a, b, c, d] = read_four(bus, PANEL_BASE + 4 * first)?;
        println!(rt; "  {first:>2}  0x{a:08x}  0x{b:08x}  0x{c:08x}  0x{d:08x}")?;
    }
    Ok(())
}

fn read_four<B: Bus>(bus: &mut B, address: u32) -> Result<[u32; 4], Fault>
    ensures leaves { Leaves B.Bus bus.old bus.new }
{
    let a = bus.read(Width::Word, Right::Privileged, address)?;
    let b = bus.read(Width::Word, Right::Privileged, address.wrapping_add(4))?;
    let c = bus.read(Width::Word, Right::Privileged, address.wrapping_add(8))?;
    let d = bus.read(Width::Word, Right::Privileged, address.wrapping_add(12))?;
    Ok([a, b, c, d])
}

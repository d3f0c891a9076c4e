// Branches.
ghost use Rattle.std.specs.Prelude.{◌≡◌, true};
ghost use Rattle.arch.specs.Branches.{returns_or_branches, bx_write_pc, branched_if, branch as branch_of, link as link_of};
ghost use Rattle.exec.specs.Outcome.{Executes, outcome};

use crate::flow::Flow;
use crate::returns::exception_return;
use arch::Registers;
use bus::{Bus, Fault};
use thumb::instructions::Branch;

fn come_back<B: Bus>(r: &mut Registers, bus: &mut B, exc: u32) -> Result<Flow, Fault>
    ensures { Executes B.Bus bus.old bus.new r.old r.new (returns_or_branches true r.old exc) outcome result }
{
    exception_return(r, bus, exc)?;
    Ok(Flow::Returned)
}

// A branch to what BX and POP give PC: in Handler mode 0xFxxxxxxx is a return.
pub fn bx_write_pc<B: Bus>(r: &mut Registers, bus: &mut B, address: u32) -> Result<Flow, Fault>
    ensures { Executes B.Bus bus.old bus.new r.old r.new (bx_write_pc r.old address) outcome result }
{
    if state::handler(r) && word::field(address, 28, 4) == 15 {
        return come_back(r, bus, address);
    }
    state::interwork(r, address);
    Ok(Flow::Ran)
}

// The address after an instruction, with bit 0 set.
fn link(r: &Registers, size: u32) -> u32
    ensures { result ≡ link_of size r.now }
{
    r.pc.wrapping_add(size) / 2 * 2 + 1
}

fn branch_if(r: &mut Registers, taken: bool, offset: u32)
    ensures { r.new ≡ branched_if taken offset r.old }
{
    if taken {
        state::branch_to(r, state::register(r, 15).wrapping_add(offset));
    } else {
        state::move_on(r, 2);
    }
}

pub fn branch<B: Bus>(r: &mut Registers, bus: &mut B, instruction: Branch) -> Result<Flow, Fault>
    ensures { Executes B.Bus bus.old bus.new r.old r.new (branch_of instruction r.old) outcome result }
{
    match instruction {
        Branch::B { offset } => state::branch_to(r, state::register(r, 15).wrapping_add(offset)),
        Branch::If { condition, offset } => branch_if(r, condition.passed(r.flags), offset),
        Branch::Bl { offset } => {
            let target = state::register(r, 15).wrapping_add(offset);
            r.lr = link(r, 4);
            state::branch_to(r, target);
        }
        Branch::Bx { m } => return bx_write_pc(r, bus, state::register(r, m)),
        Branch::Blx { m } => {
            let target = state::register(r, m);
            r.lr = link(r, 2);
            state::interwork(r, target);
        }
    }
    Ok(Flow::Ran)
}

// What a call changed of a core, name by name.
use arch::Registers;
use std::io;

// In lower case, as in the disassembly beside them.
const GENERAL: [&str; 13] = [
    "r0", "r1", "r2", "r3", "r4", "r5", "r6", "r7", "r8", "r9", "r10", "r11", "r12",
];

// PC is left out: the next line shows it.
pub fn print_changes(rt: &HostRuntime, before: &Registers, after: &Registers) -> io::Result<()> {
    for ((name, old), new) in GENERAL.iter().zip(&before.general).zip(&after.general) {
        print_change(rt, name, *old, *new)?;
    }
    print_change(rt, "lr", before.lr, after.lr)?;
    print_change(rt, "msp", before.msp, after.msp)?;
    print_change(rt, "psp", before.psp, after.psp)?;
    print_flags(rt, before, after)?;
    print_marks(rt, before, after)?;
    print_sets(rt, before, after)?;
    println!(rt)
}

fn print_flags(rt: &HostRuntime, before: &Registers, after: &Registers) -> io::Result<()> {
    print_change(rt, "n", before.flags.n, after.flags.n)?;
    print_change(rt, "z", before.flags.z, after.flags.z)?;
    print_change(rt, "c", before.flags.c, after.flags.c)?;
    print_change(rt, "v", before.flags.v, after.flags.v)
}

fn print_marks(rt: &HostRuntime, before: &Registers, after: &Registers) -> io::Result<()> {
    print_change(rt, "t", before.thumb, after.thumb)?;
    print_change(rt, "primask", before.primask, after.primask)?;
    print_change(rt, "npriv", before.control.npriv, after.control.npriv)?;
    print_change(rt, "spsel", before.control.spsel, after.control.spsel)?;
    print_change(rt, "locked", before.locked, after.locked)
}

// Sets have a bit for each exception.
fn print_sets(rt: &HostRuntime, before: &Registers, after: &Registers) -> io::Result<()> {
    let old = before.exceptions;
    let new = after.exceptions;
    print_change(rt, "pending", old.pending, new.pending)?;
    print_change(rt, "active", old.active, new.active)?;
    print_change(rt, "armed", old.armed, new.armed)
}

fn print_change<T: Into<u64>>(rt: &HostRuntime, name: &str, old: T, new: T) -> io::Result<()> {
    let old: u64 = old.into();
    let new: u64 = new.into();
    if old == new {
        return Ok(());
    }
    print!(rt; "  {name}={new:x}")
}

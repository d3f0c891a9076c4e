use super::machines::{Expected, MEMORY, follow, load, pile};
use arch::Call;
use bus::Refusal;
use cpu::Core;
use std::test::Fail;

// A machine that is reset with this code, taken through these calls.
fn machine(rt: &HostRuntime, code: &[u16], rows: &[(Call, Expected)]) -> Result<(), Fail> {
    let mut bytes = vec![in rt.alloc(); 0u8; MEMORY]?;
    load(&mut bytes, code)?;
    let mut bus = pile(&mut bytes)?;
    let mut core = Core::new();
    follow(&mut core, &mut bus, &[(Call::Step, Expected::Refused(15))])?;
    core.reset(&mut bus)?;
    follow(&mut core, &mut bus, rows)
}

#[test]
fn of_equal_priorities_the_lower_number_goes_first(rt: HostRuntime) -> Result<(), Fail> {
    machine(
        &rt,
        &[],
        &[
            (Call::Raise(17), Expected::Accepted),
            (Call::Raise(16), Expected::Accepted),
            (Call::Arm(17, true), Expected::Accepted),
            (Call::Arm(16, true), Expected::Accepted),
            (Call::Rank(17, 0), Expected::Accepted),
            (Call::Rank(16, 0), Expected::Accepted),
            (Call::Step, Expected::Entered(16)),
        ],
    )
}

#[test]
fn a_better_exception_preempts_and_both_return(rt: HostRuntime) -> Result<(), Fail> {
    machine(
        &rt,
        &[0xbf00],
        &[
            (Call::Arm(16, true), Expected::Accepted),
            (Call::Arm(17, true), Expected::Accepted),
            (Call::Rank(16, 3), Expected::Accepted),
            (Call::Rank(17, 1), Expected::Accepted),
            (Call::Raise(16), Expected::Accepted),
            (Call::Step, Expected::Entered(16)),
            (Call::Raise(17), Expected::Accepted),
            (Call::Step, Expected::Entered(17)),
            (Call::Step, Expected::Returned),
            (Call::Step, Expected::Returned),
            (Call::Step, Expected::Ran),
        ],
    )
}

#[test]
fn calls_are_turned_away_by_number(rt: HostRuntime) -> Result<(), Fail> {
    machine(
        &rt,
        &[],
        &[
            (Call::Raise(11), Expected::Refused(12)),
            (Call::Raise(48), Expected::Refused(12)),
            (Call::Arm(15, true), Expected::Refused(12)),
            (Call::Rank(2, 4), Expected::Refused(12)),
            (Call::Rank(16, 4), Expected::Refused(13)),
        ],
    )?;
    let mut odd = *Core::new().registers();
    odd.pc = 1;
    let refused = Core::with_registers(odd).err();
    assert_eq!(rt; refused.map(Refusal::number), Some(14));
    Ok(())
}

// The code runs so many instructions, then faults with this cause, and HardFault is taken up.
fn faults(rt: &HostRuntime, code: &[u16], instructions: usize, cause: u8) -> Result<(), Fail> {
    let mut rows = vec![in rt.alloc(); (Call::Step, Expected::Ran); instructions]?;
    rows.push((Call::Step, Expected::Faulted(cause)))?;
    rows.push((Call::Step, Expected::Entered(3)))?;
    machine(rt, code, &rows)
}

#[test]
fn instructions_fault_by_number(rt: HostRuntime) -> Result<(), Fail> {
    // ldr r0, [r1] at 0x900
    faults(&rt, &[0x2190, 0x0109, 0x6808], 2, 1)?;
    // str r0, [r1] at 0
    faults(&rt, &[0x2100, 0x6008], 1, 2)?;
    // ldrb r0, [r1] at 0x40000000
    faults(&rt, &[0x2101, 0x0789, 0x7808], 2, 3)?;
    // msr control, r0 with nPRIV: the next fetch is unprivileged
    faults(&rt, &[0x2001, 0xf380, 0x8814], 2, 4)?;
    // ldr r0, [r1] at 1
    faults(&rt, &[0x2101, 0x6808], 1, 5)?;
    // udf, ldm with an empty list, bkpt
    faults(&rt, &[0xde00], 0, 6)?;
    faults(&rt, &[0xc800], 0, 7)?;
    faults(&rt, &[0xbe00], 0, 8)?;
    // bx r0 at 0: T is clear then
    faults(&rt, &[0x2000, 0x4700], 2, 9)?;
    // cpsid i; svc 0
    faults(&rt, &[0xb672, 0xdf00], 1, 10)
}

#[test]
fn a_bad_return_faults_and_in_nmi_it_locks(rt: HostRuntime) -> Result<(), Fail> {
    machine(
        &rt,
        &[],
        &[
            (Call::Arm(18, true), Expected::Accepted),
            (Call::Raise(18), Expected::Accepted),
            (Call::Step, Expected::Entered(18)),
            (Call::Step, Expected::Ran),
            (Call::Step, Expected::Ran),
            (Call::Step, Expected::Faulted(11)),
            (Call::Step, Expected::Entered(3)),
            (Call::Raise(2), Expected::Accepted),
            (Call::Step, Expected::Entered(2)),
            (Call::Step, Expected::Ran),
            (Call::Step, Expected::Ran),
            (Call::Step, Expected::Locked(11)),
            (Call::Step, Expected::Refused(15)),
        ],
    )
}

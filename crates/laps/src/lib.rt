// Runs and temperatures, tried at their bounds.
#![tactic(auto)]

#[cfg(test)]
mod tests {
    use arch::Answer;
    use bus::{Bus, Refusal, Right, Width};
    use cpu::Core;
    use parts::{Panel, Strip};
    use runs::{Counts, FaultSpan, Outcome, Tally};
    use std::test::Fail;

    // A core just after a reset, with one halfword of code at 8; HardFault has no handler.
    fn booted<B: Bus>(bus: &mut B, code: u32) -> Result<Core, Fail> {
        let words = [(0, 0x100), (4, 9), (8, code)];
        for (address, word) in words {
            bus.write(Width::Word, Right::Privileged, address, word)?;
        }
        let mut core = Core::new();
        core.reset(bus)?;
        Ok(core)
    }

    fn outcome<T>(steps: u32, tally: T) -> Outcome<T> {
        Outcome { steps, tally }
    }

    // So many steps ran, and nothing else came of any.
    fn ran(steps: u64) -> Counts {
        Counts {
            ran: steps,
            ..Counts::default()
        }
    }

    #[test]
    fn runs_have_a_longest(rt: HostRuntime) -> Result<(), Fail> {
        let mut bytes = vec![in rt.alloc(); 0u8; 0x100]?;
        let mut bus = Strip::new(&mut bytes, 0, 0)?;
        // b .
        let mut core = booted(&mut bus, 0xe7fe)?;
        let shortest = runs::run(&mut core, &mut bus, 0)?;
        assert_eq!(rt; shortest, outcome(0, ran(0)));
        let longest = runs::run(&mut core, &mut bus, 65535)?;
        assert_eq!(rt; longest, outcome(65535, ran(65535)));
        let beyond: Result<Outcome<Counts>, Refusal> = runs::run(&mut core, &mut bus, 65536);
        assert_eq!(rt; beyond.err().map(Refusal::number), Some(12));
        let in_parts = runs::run_twice(&mut core, &mut bus, 65535, 1)?;
        assert_eq!(rt; in_parts, outcome(65536, ran(65536)));
        Ok(())
    }

    #[test]
    fn a_lock_ends_a_run(rt: HostRuntime) -> Result<(), Fail> {
        let mut bytes = vec![in rt.alloc(); 0u8; 0x100]?;
        let mut bus = Strip::new(&mut bytes, 0, 0)?;
        // udf: it faults, HardFault is taken up, and its handler at 0 is no Thumb code
        let mut core = booted(&mut bus, 0xde00)?;
        let locking = runs::run_twice(&mut core, &mut bus, 2, 9)?;
        let span = FaultSpan {
            least: 0,
            greatest: 8,
        };
        assert_eq!(rt; locking, outcome(3, Some(span)));
        let afterwards = runs::run(&mut core, &mut bus, 5)?;
        assert_eq!(rt; afterwards, outcome(0, ran(0)));
        Ok(())
    }

    #[test]
    fn counts_stay_at_the_top(rt: HostRuntime) {
        let almost = Counts {
            ran: u64::MAX - 1,
            ..Counts::of(Answer::Ran)
        };
        let full = almost.join(Counts::of(Answer::Ran));
        assert_eq!(rt; full, ran(u64::MAX));
        let still = full
            .join(Counts::of(Answer::Ran))
            .join(Counts::of(Answer::Returned));
        let expected = Counts {
            returned: 1,
            ..ran(u64::MAX)
        };
        assert_eq!(rt; still, expected);
    }

    // Hundredths and what they read as.
    const READINGS: [(i32, i32); 8] = [
        (-2155, -215),
        (-2156, -216),
        (2154, 215),
        (2155, 216),
        (-6, -1),
        (-5, 0),
        (i32::MAX, 214748365),
        (i32::MIN, -214748365),
    ];

    #[test]
    fn temperatures_in_tenths(rt: HostRuntime) {
        for (hundredths, tenths) in READINGS {
            assert_eq!(rt; runs::tenths_of(hundredths.cast_unsigned()), tenths);
        }
    }

    #[test]
    fn a_panel_in_tenths(rt: HostRuntime) -> Result<(), Fail> {
        let mut panel = Panel::new(0)?;
        panel.set_word(0, 2150)?;
        panel.set_word(15, (-2155i32).cast_unsigned())?;
        assert_eq!(rt; runs::panel_tenths(&panel, 15)?, -215);
        let beyond = runs::panel_tenths(&panel, 16);
        assert_eq!(rt; beyond.err().map(Refusal::number), Some(12));
        assert_eq!(rt; runs::sum_of_tenths(&panel), 0);
        Ok(())
    }
}

// Parts piled on one another, tried access by access.
#![tactic(auto)]

#[cfg(test)]
mod tests {
    use bus::{Access, Bus, Refusal, Right, Use, Width};
    use parts::{Limit, Panel, RegionCheck, Setting, Split, Strip};
    use std::test::Fail;

    // What an access should answer: a value, or a fault by the numbers of its cause, its kind and its hops.
    type Expected = Result<u32, (u8, u8, u8)>;

    #[derive(Clone, Copy)]
    struct Row {
        access: Access,
        value: u32,
        expected: Expected,
    }

    fn row_of(usage: Use, right: Right, address: u32, value: u32, expected: Expected) -> Row {
        Row {
            access: Access {
                usage,
                right,
                address,
            },
            value,
            expected,
        }
    }

    fn fetch(right: Right, address: u32, expected: Expected) -> Row {
        row_of(Use::Fetch, right, address, 0, expected)
    }

    fn read(right: Right, width: Width, address: u32, expected: Expected) -> Row {
        row_of(Use::Read(width), right, address, 0, expected)
    }

    fn write(right: Right, width: Width, address: u32, value: u32, expected: Expected) -> Row {
        row_of(Use::Write(width), right, address, value, expected)
    }

    fn try_rows<B: Bus>(bus: &mut B, rows: &[Row]) -> Result<(), Fail> {
        for row in rows {
            try_row(bus, *row)?;
        }
        Ok(())
    }

    // A fault has the access's own address.
    fn try_row<B: Bus>(bus: &mut B, row: Row) -> Result<(), Fail> {
        let at = row.access.address;
        let found = bus.access(row.access, row.value).map_err(|fault| (
            fault.address,
            fault.cause.number(),
            fault.kind,
            fault.hops,
        ));
        let wanted = row
            .expected
            .map_err(|(cause, kind, hops)| (at, cause, kind, hops));
        if found != wanted {
            return Err(Fail::new(format_args!("got {found:?} and not {wanted:?}")));
        }
        Ok(())
    }

    // The number that a call was turned away with.
    fn refusal<T: Drop>(res: Result<T, Refusal>) -> Option<u8> {
        res.err().map(Refusal::number)
    }

    fn region(base: u32, exponent: u8, code: u8) -> Setting {
        Setting {
            on: true,
            base,
            exponent,
            code,
            no_fetch: false,
            sub_marks: 0,
        }
    }

    // A region check over flash below 0x20000000, RAM below 0x40000000, and a panel.
    fn piled<'a>(
        flash: &'a mut [u8],
        ram: &'a mut [u8],
    ) -> Result<RegionCheck<Memory<'a>>, Refusal> {
        let ram_from = Limit::new(0x2000_0000)?;
        let panel_from = Limit::new(0x4000_0000)?;
        let flash = Strip::new(flash, 0, 0x110)?;
        let ram = Strip::new(ram, 0x2000_0000, 0)?;
        let panel = Panel::new(0x4000_0000)?;
        let memory = Split::new(ram_from, flash, Split::new(panel_from, ram, panel));
        let mut pile = RegionCheck::new(memory);
        pile.set_background(true);
        pile.set_region(0, region(0, 8, 6))?;
        pile.set_region(1, region(0x2000_0000, 8, 3))?;
        pile.set_region(2, region(0x4000_0000, 8, 3))?;
        Ok(pile)
    }

    type Memory<'a> = Split<Strip<'a>, Split<Strip<'a>, Panel>>;

    #[test]
    fn what_is_allowed_is_answered(rt: HostRuntime) -> Result<(), Fail> {
        let mut flash = vec![in rt.alloc(); 0x5au8; 0x120]?;
        let mut ram = vec![in rt.alloc(); 0u8; 0x40]?;
        let mut pile = piled(&mut flash, &mut ram)?;
        let user = Right::Unprivileged;
        let host = Right::Privileged;
        let done = Ok(0);
        try_rows(
            &mut pile,
            &[
                fetch(user, 0x02, Ok(0x5a5a)),
                read(host, Width::Word, 0x11c, Ok(0x5a5a_5a5a)),
                write(host, Width::Byte, 0x110, 0xa5, done),
                read(host, Width::Word, 0x110, Ok(0x5a5a_5aa5)),
                write(user, Width::Word, 0x2000_0004, 0x1234_5678, done),
                read(user, Width::Byte, 0x2000_0005, Ok(0x56)),
                write(user, Width::Half, 0x2000_0006, 0xabcd, done),
                read(host, Width::Word, 0x2000_0004, Ok(0xabcd_5678)),
                write(user, Width::Word, 0x4000_003c, 2150, done),
                read(user, Width::Word, 0x4000_003c, Ok(2150)),
                read(user, Width::Word, 0x4000_0038, Ok(0)),
            ],
        )?;
        assert!(rt; ram.len() == 0x40 && flash.len() == 0x120);
        assert_eq!(rt;
            [ram[3], ram[4], ram[5], ram[6], ram[7], ram[8]],
            [0, 0x78, 0x56, 0xcd, 0xab, 0]
        );
        assert_eq!(rt;
            [flash[0x10f], flash[0x110], flash[0x111]],
            [0x5a, 0xa5, 0x5a]
        );
        Ok(())
    }

    #[test]
    fn what_is_refused_says_why(rt: HostRuntime) -> Result<(), Fail> {
        let mut flash = vec![in rt.alloc(); 0x5au8; 0x120]?;
        let mut ram = vec![in rt.alloc(); 0u8; 0x40]?;
        let mut pile = piled(&mut flash, &mut ram)?;
        let user = Right::Unprivileged;
        let host = Right::Privileged;
        try_rows(
            &mut pile,
            &[
                read(host, Width::Byte, 0x120, Err((1, 1, 2))),
                read(host, Width::Word, 0x2000_0040, Err((1, 1, 3))),
                read(user, Width::Word, 0x4000_0040, Err((1, 2, 3))),
                write(host, Width::Word, 0x10c, 0, Err((2, 1, 2))),
                read(user, Width::Byte, 0x4000_0000, Err((3, 2, 3))),
                write(user, Width::Half, 0x4000_0002, 1, Err((3, 2, 3))),
                fetch(host, 0x4000_0000, Err((3, 2, 3))),
                read(user, Width::Word, 0x110, Err((4, 4, 0))),
                write(host, Width::Word, 0x08, 0, Err((4, 4, 0))),
                read(host, Width::Word, 0x2000_0002, Err((5, 4, 0))),
                fetch(user, 0x111, Err((5, 4, 0))),
            ],
        )?;
        assert!(rt; ram.len() == 0x40 && flash.len() == 0x120);
        assert_eq!(rt; [flash[0x08], flash[0x10c], ram[0]], [0x5a, 0x5a, 0]);
        Ok(())
    }

    #[test]
    fn sub_marks_leave_eighths_out(rt: HostRuntime) -> Result<(), Fail> {
        let mut pile = RegionCheck::new(Panel::new(0)?);
        let mut setting = region(0x100, 8, 3);
        setting.sub_marks = 0b0000_0001;
        pile.set_region(2, setting)?;
        assert_eq!(rt; pile.decider(0x11f), None);
        assert_eq!(rt; pile.decider(0x120), Some(2));
        assert_eq!(rt; pile.decider(0x1ff), Some(2));
        assert_eq!(rt; pile.decider(0x200), None);
        Ok(())
    }

    #[test]
    fn the_part_asked_refuses_a_misaligned_access(rt: HostRuntime) -> Result<(), Fail> {
        let mut bytes = vec![in rt.alloc(); 0u8; 8]?;
        let mut strip = Strip::new(&mut bytes, 0, 0)?;
        try_row(
            &mut strip,
            read(Right::Privileged, Width::Half, 0x1, Err((5, 1, 0))),
        )?;
        let mut panel = Panel::new(0x40)?;
        try_row(
            &mut panel,
            read(Right::Privileged, Width::Word, 0x42, Err((5, 2, 0))),
        )?;
        let limit = Limit::new(0x40)?;
        let mut split = Split::new(limit, strip, panel);
        try_row(
            &mut split,
            read(Right::Privileged, Width::Word, 0x42, Err((5, 3, 0))),
        )
    }

    #[test]
    fn strips_are_checked(rt: HostRuntime) -> Result<(), Fail> {
        let mut long = vec![in rt.alloc(); 0u8; 65537]?;
        assert_eq!(rt; refusal(Strip::new(&mut long, 0, 0)), Some(14));
        assert!(rt; long.pop().is_some());
        assert_eq!(rt; refusal(Strip::new(&mut long, 0, 65536)), None);
        let mut bytes = [0u8; 8];
        assert_eq!(rt; refusal(Strip::new(&mut bytes, 0xffff_fff8, 8)), None);
        assert_eq!(rt; refusal(Strip::new(&mut bytes, 0xffff_fffc, 8)), Some(14));
        assert_eq!(rt; refusal(Strip::new(&mut bytes, 0, 9)), Some(14));
        assert_eq!(rt; refusal(Strip::new(&mut bytes, 2, 0)), Some(14));
        Ok(())
    }

    #[test]
    fn panels_and_limits_are_checked(rt: HostRuntime) -> Result<(), Fail> {
        assert_eq!(rt; refusal(Limit::new(4)), None);
        assert_eq!(rt; refusal(Limit::new(6)), Some(14));
        assert_eq!(rt; refusal(Panel::new(0x4000_0020)), Some(14));
        let mut panel = Panel::new(0x4000_0040)?;
        panel.set_word(15, 1985)?;
        assert_eq!(rt; refusal(panel.set_word(16, 7)), Some(12));
        assert_eq!(rt; refusal(panel.word(16)), Some(12));
        assert_eq!(rt; panel.word(14)?, 0);
        assert_eq!(rt; panel.word(15)?, 1985);
        Ok(())
    }

    #[test]
    fn a_refused_setting_changes_no_region(rt: HostRuntime) -> Result<(), Fail> {
        let mut pile = RegionCheck::new(Panel::new(0)?);
        pile.set_region(3, region(0x100, 8, 2))?;
        assert_eq!(rt; refusal(pile.set_region(8, region(0, 32, 0))), Some(12));
        assert_eq!(rt; refusal(pile.set_region(8, region(0, 7, 4))), Some(12));
        assert_eq!(rt; refusal(pile.set_region(3, region(0, 7, 0))), Some(14));
        assert_eq!(rt; refusal(pile.set_region(3, region(0, 33, 0))), Some(14));
        assert_eq!(rt; refusal(pile.set_region(3, region(0x80, 8, 0))), Some(14));
        assert_eq!(rt;
            refusal(pile.set_region(3, region(0x8000_0000, 32, 0))),
            Some(14)
        );
        assert_eq!(rt; refusal(pile.set_region(3, region(0x100, 8, 4))), Some(14));
        assert_eq!(rt; refusal(pile.set_region(3, region(0x100, 8, 8))), Some(14));
        assert_eq!(rt; pile.decider(0x100), Some(3));
        assert_eq!(rt; pile.decider(0x200), None);
        assert!(rt; pile.lets_pass(read(Right::Unprivileged, Width::Word, 0x100, Ok(0)).access,));
        assert!(rt;
            !pile.lets_pass(write(Right::Unprivileged, Width::Word, 0x100, 0, Ok(0),).access,)
        );
        Ok(())
    }

    #[test]
    fn the_highest_region_decides(rt: HostRuntime) -> Result<(), Fail> {
        let mut pile = RegionCheck::new(Panel::new(0x100)?);
        pile.set_region(7, region(0x100, 8, 2))?;
        pile.set_region(0, region(0, 32, 3))?;
        assert_eq!(rt; pile.decider(0x0ff), Some(0));
        assert_eq!(rt; pile.decider(0x100), Some(7));
        let user = Right::Unprivileged;
        try_rows(
            &mut pile,
            &[
                write(user, Width::Word, 0x100, 9, Err((4, 4, 0))),
                read(user, Width::Word, 0x100, Ok(0)),
                write(user, Width::Word, 0x0fc, 9, Err((1, 2, 1))),
            ],
        )
    }
}

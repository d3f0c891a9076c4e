use super::*;

#[test]
fn sums_at_the_edges(rt: HostRuntime) {
    let top = Sum {
        value: 0x8000_0000,
        carry: false,
        overflow: true,
    };
    assert_eq!(rt; add_with_carry(0x7fff_ffff, 1, false), top);
    let round = Sum {
        value: 0,
        carry: true,
        overflow: false,
    };
    assert_eq!(rt; add_with_carry(0xffff_ffff, 0, true), round);
    let flags = compared(3, 0xffff_fffe);
    assert!(rt; Condition::Cc.passed(flags) && Condition::Gt.passed(flags));
}

#[test]
fn shifts_past_the_width(rt: HostRuntime) {
    let gone = Shifted {
        value: 0,
        carry: true,
    };
    assert_eq!(rt; shift_c(Shift::Lsr, 0x8000_0000, 32, false), gone);
    assert!(rt; !shift_c(Shift::Lsl, 0xffff_ffff, 33, true).carry);
    assert_eq!(rt;
        shift_c(Shift::Asr, 0x8000_0000, 255, false).value,
        0xffff_ffff
    );
    let turned = Shifted {
        value: 0x8000_0001,
        carry: true,
    };
    assert_eq!(rt; shift_c(Shift::Ror, 0x8000_0001, 32, false), turned);
}

#[test]
fn bytes_and_bits(rt: HostRuntime) {
    assert_eq!(rt; sign_extend(0x1234_5680, 8), 0xffff_ff80);
    assert_eq!(rt; revsh(0x1234_8081), 0xffff_8180);
    assert_eq!(rt; rev16(0x1122_3344), 0x2211_4433);
    assert_eq!(rt; field(0xdead_beef, 28, 8), 0xd);
    assert_eq!(rt; least(without(with(with(0, 47), 16), 16)), Some(47));
}

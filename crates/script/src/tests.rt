use super::*;
use bus::{Bus, Refusal, Right, Width};
use std::test::Fail;

#[test]
fn a_closure_prints_the_panel_that_the_script_left(rt: HostRuntime) -> Result<(), Fail> {
    let mut seen = 0;
    show_with(&rt, &[], "privileged write word 0x40000004 2100", |hub| {
        seen = hub.read(Width::Word, Right::Privileged, PANEL_BASE + 4)?;
        Ok(())
    })?;
    assert_eq!(rt; seen, 2100);
    Ok(())
}

#[test]
fn a_panel_that_is_not_printed_ends_the_report(rt: HostRuntime) {
    let shown = show_with(&rt, &[], "", |_| Err(Trouble::from(Refusal::BadSetting)));
    assert!(rt; matches!(shown, Err(Trouble::Refused(Refusal::BadSetting))));
}

#[test]
fn no_panel_is_printed_of_an_image_too_long(rt: HostRuntime) {
    let mut called = false;
    let image = [0u8; FLASH_SIZE as usize + 1];
    let shown = show_with(&rt, &image, "", |_| {
        called = true;
        Ok(())
    });
    assert!(rt; matches!(shown, Err(Trouble::Refused(Refusal::BadSetting))));
    assert!(rt; !called);
}

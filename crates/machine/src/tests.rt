use super::*;
use bus::{Cause, Right, Width};
use std::test::Fail;

#[test]
fn a_turn_shuts_the_neighbour_out_and_leaves_the_flat_its_own(rt: HostRuntime) -> Result<(), Fail> {
    let mut flash = vec![in rt.alloc(); 0u8; memory::FLASH_SIZE as usize]?;
    let mut ram = vec![in rt.alloc(); 0u8; memory::RAM_SIZE as usize]?;
    let mut hub = memory::build(&mut flash, &mut ram)?;
    let mut core = Core::new();
    let _ = play_turn(&rt, &mut core, &mut hub, Flat::One, &[], false)?;
    assert_eq!(rt;
        hub.read(Width::Word, Right::Unprivileged, Flat::One.ram_base()),
        Ok(0)
    );
    let shut = hub.read(Width::Word, Right::Unprivileged, Flat::Two.ram_base());
    assert_eq!(rt; shut.map_err(|fault| fault.cause), Err(Cause::Forbidden));
    Ok(())
}

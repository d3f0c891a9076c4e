// The hub's memory: flash, RAM and a panel side by side, under a region check that is set for two flats.
ghost use Rattle.std.specs.Prelude.{◌≡◌, true, ◌++◌, length, drop, replicate, IfOk, if◌then◌else◌, Ok, Err, nat_le};
ghost use Rattle.bus.specs.declared.refusal.Refusal.TheVariants.{BadSetting};
ghost use Rattle.parts.specs.Region.{off_region};
ghost use Rattle.memory.specs.Flats.{both_wait, Spare};

use crate::regions::start;
use bus::{Bus, Refusal};
use parts::{Limit, Panel, RegionCheck, Split, Strip};

pub const FLASH_BASE: u32 = 0x0000_0000;

pub const FLASH_SIZE: u32 = 4096;

pub const RAM_BASE: u32 = 0x2000_0000;

pub const RAM_SIZE: u32 = 8192;

pub const PANEL_BASE: u32 = 0x4000_0000;

// What flash holds where nothing was written.
pub const ERASED: u8 = 0xff;

// Puts an image into the flash and erases the rest; one that is too long is refused.
pub fn burn(flash: &mut [u8], image: &[u8]) -> Result<(), Refusal>
    ensures value { result ≡ (if nat_le (length image.now) (length flash.old) then Ok tt else Err BadSetting) }
    ensures contents { flash.new ≡ (if nat_le (length image.now) (length flash.old) then image.now ++ drop (length image.now) (replicate (length flash.old) 255) else flash.old) }
{
    if image.len() > flash.len() {
        return Err(Refusal::BadSetting);
    }
    flash.fill(ERASED);
    flash[..image.len()].copy_from_slice(image);
    Ok(())
}

pub type Memory<'a> = Split<Strip<'a>, Split<Strip<'a>, Panel>>;

// Neither flat runs yet, the two regions that no flat has are off, and the supervisor passes where no region covers.
pub fn build<'a>(flash: &'a mut [u8], ram: &'a mut [u8]) -> Result<RegionCheck<Memory<'a>>, Refusal>
    ensures { IfOk result (λ hub. (hub.table.regions ≡ both_wait (replicate 8 off_region)) × Spare hub.table.regions × (hub.background ≡ true)) }
{
    let ram_from = Limit::new(RAM_BASE)?;
    let panel_from = Limit::new(PANEL_BASE)?;
    let panel = Panel::new(PANEL_BASE)?;
    let ram = Strip::new(ram, RAM_BASE, 0)?;
    let flash = Strip::new(flash, FLASH_BASE, FLASH_SIZE)?;
    let memory = Split::new(ram_from, flash, Split::new(panel_from, ram, panel));
    let mut hub = RegionCheck::new(memory);
    start(&mut hub)?;
    Ok(hub)
}

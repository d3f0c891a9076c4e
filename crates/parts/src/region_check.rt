// A region check: one bus, and eight regions that say who may use what of it.
ghost use Rattle.std.specs.Prelude.{◌≡◌, ℕ, Bool, false, ◌&&◌, List, length, replicate, ◌≢◌, slice_index_or};
ghost use Rattle.bus.specs.declared.access.Access.{Access};
ghost use Rattle.parts.specs.declared.region.Slot.{Slot};
ghost use Rattle.parts.specs.Region.{off_region, is_privileged};
ghost use Rattle.parts.specs.RegionCheck.{covered_by, deciding, Decides, OneDecider, passes, setting_answer, regions_after, check_verdict, check_laws};

use crate::region::{Setting, Slot};
use crate::{hop, region};
use bus::{Access, Bus, Cause, Fault, Refusal};

const REGION_CHECK_KIND: u8 = 4;

#[derive(Clone, Copy)]
pub struct Table {
    regions: [Slot; 8],
}

// The number of the region that decides on an address: the highest that covers it.
fn deciding_region(regions: &[Slot], address: u32) -> Option<usize>
    ensures value { result ≡ deciding regions.now address }
    ensures highest { Decides (covered_by regions.now address) (length regions.now) result }
{
    regions.iter().rposition(|slot| slot.covers(address))
}

fn passes_regions(regions: &[Slot], background: bool, access: Access) -> bool
    ensures { result ≡ passes regions.now background access }
{
    match deciding_region(regions, access.address) {
        Some(number) => regions[number].permits(access),
        None => background && region::privileged(access.right),
    }
}

#[derive(Drop)]
pub struct RegionCheck<B> {
    pub below: B,
    table: Table,
    background: bool,
}

impl<B: Bus> RegionCheck<B> {
    // All regions off and no background, so that nothing passes.
    pub fn new(below: B) -> RegionCheck<B>
        ensures { result ≡ record { below = below; table = record { regions = replicate 8 off_region }; background = false } }
    {
        RegionCheck {
            below,
            table: Table {
                regions: [Slot::off(); 8],
            },
            background: false,
        }
    }

    // Sets one region, and leaves the other seven.
    pub fn set_region(&mut self, number: u32, setting: Setting) -> Result<(), Refusal>
        ensures value { result ≡ setting_answer number setting }
        ensures regions { self.new.table.regions ≡ regions_after self.old.table.regions number setting }
        ensures others { (k : ℕ) → (k ≢ number) → slice_index_or self.new.table.regions k off_region ≡ slice_index_or self.old.table.regions k off_region }
        ensures rest { (self.new.below ≡ self.old.below) × (self.new.background ≡ self.old.background) }
    {
        if number > 7 {
            return Err(Refusal::OutOfRange);
        }
        let region = Slot::of(setting)?;
        self.table.regions[number as usize] = region;
        Ok(())
    }

    // Whether privileged accesses pass where no region covers.
    pub fn set_background(&mut self, on: bool)
        ensures { self.new ≡ record { below = self.old.below; table = self.old.table; background = on } }
    {
        self.background = on;
    }

    // The number of the region that decides on an address.
    pub fn decider(&self, address: u32) -> Option<usize>
        ensures value { result ≡ deciding self.now.table.regions address }
        ensures highest { Decides (covered_by self.now.table.regions address) (length self.now.table.regions) result }
    {
        deciding_region(&self.table.regions, address)
    }

    // Whether the regions let an access pass.
    pub fn lets_pass(&self, access: Access) -> bool
        ensures value { result ≡ passes self.now.table.regions self.now.background access }
        ensures uncovered { ((k : ℕ) → covered_by self.now.table.regions access.address k ≡ false) → result ≡ (self.now.background && is_privileged access.right) }
        ensures whole { OneDecider self.now.table.regions access }
    {
        passes_regions(&self.table.regions, self.background, access)
    }
}

impl<B: Bus> Bus for RegionCheck<B> {
    const KIND: u8 = REGION_CHECK_KIND;

    ghost kind = { 4 };

    ghost bytes = { λ s. B.Bus.bytes s.below };

    ghost verdict = { λ s. check_verdict s.table.regions s.background (B.Bus.verdict s.below) };

    ghost Settings = { List Slot × (Bool × B.Bus.Settings) };

    ghost settings = { λ s. (s.table.regions, (s.background, B.Bus.settings s.below)) };

    ghost laws = { check_laws B.Bus.laws };

    fn access(&mut self, access: Access, value: u32) -> Result<u32, Fault> {
        access.aligned(REGION_CHECK_KIND)?;
        if !self.lets_pass(access) {
            return Err(Fault::raise(Cause::Forbidden, access, REGION_CHECK_KIND));
        }
        hop::hand_up(self.below.access(access, value))
    }
}

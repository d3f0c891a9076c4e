// The regions that the supervisor's host sets for the flats: the running flat's are open, the waiting one's shut.
ghost use Rattle.std.specs.Prelude.{◌≡◌, true, Ok};
ghost use Rattle.bus.specs.Memory.{load};
ghost use Rattle.memory.specs.Flats.{flat_number, neighbour, rights_in, code_region, ram_region, panel_region, flat_regions, both_wait, handed_to, Spare, Shut};
ghost use Rattle.memory.specs.Prepared.{hub_world, prepared_world};

use crate::flats::Flat;
use crate::pile::{PANEL_BASE, RAM_BASE};
use crate::trouble::Trouble;
use bus::{Bus, Refusal, Right, Width};
use parts::{RegionCheck, Setting};

// The supervisor may use all that no region covers, and neither flat runs yet. That the last two regions are off is a
// premise here and below, and no invariant of a type: these functions serve any region check.
pub fn start<B: Bus>(hub: &mut RegionCheck<B>) -> Result<(), Refusal>
    ensures value { result ≡ Ok tt }
    ensures regions { hub.new.table.regions ≡ both_wait hub.old.table.regions }
    ensures spare { Spare hub.old.table.regions → Spare hub.new.table.regions }
    ensures rest { (hub.new.below ≡ hub.old.below) × (hub.new.background ≡ true) }
{
    hub.set_background(true);
    // never refused, by `value`; a `Result`, as `set_region` answers one
    set_flat(hub, Flat::One, Turn::Waits)?;
    set_flat(hub, Flat::Two, Turn::Waits)
}

// Hands the regions to one flat, after it took them from the other: no unprivileged access to the other's RAM or code
// passes then, whatever it is for.
pub fn hand_to<B: Bus>(hub: &mut RegionCheck<B>, flat: Flat) -> Result<(), Refusal>
    ensures value { result ≡ Ok tt }
    ensures regions { hub.new.table.regions ≡ handed_to hub.old.table.regions flat }
    ensures shut { Spare hub.old.table.regions → Shut (neighbour flat) hub.new.table.regions × Spare hub.new.table.regions }
    ensures rest { (hub.new.below ≡ hub.old.below) × (hub.new.background ≡ hub.old.background) }
{
    set_flat(hub, flat.neighbour(), Turn::Waits)?;
    set_flat(hub, flat, Turn::Runs)
}

// Prepares a turn: the regions are the flat's, and the supervisor finds its number at the beginning of the RAM.
pub fn prepare<B: Bus>(hub: &mut RegionCheck<B>, flat: Flat) -> Result<(), Trouble>
    ensures ready { result ≡ Ok tt → (hub_world hub.new.table.regions hub.new.background (B.Bus.bytes hub.new.below) (B.Bus.verdict hub.new.below)) ≡ (prepared_world hub.old.table.regions hub.old.background (B.Bus.bytes hub.old.below) (B.Bus.verdict hub.old.below) flat) }
    ensures told { result ≡ Ok tt → load 4 (B.Bus.bytes hub.new.below) 0x2000_0000 ≡ flat_number flat }
    ensures regions { hub.new.table.regions ≡ handed_to hub.old.table.regions flat }
    ensures shut { Spare hub.old.table.regions → Shut (neighbour flat) hub.new.table.regions × Spare hub.new.table.regions }
{
    hand_to(hub, flat)?;
    hub.write(Width::Word, Right::Privileged, RAM_BASE, flat.number())?;
    Ok(())
}

// Codes, as a setting takes them: one that means nothing is refused there.
const SUPERVISOR_ONLY: u8 = 1;

const ALL_WRITE: u8 = 3;

const ALL_READ: u8 = 6;

// Whether a flat's schedule is the one that runs: the names say more than a bool.
#[derive(Clone, Copy, Debug, PartialEq, Eq)]
enum Turn {
    Runs,
    Waits,
}

impl Turn {
    // The rights of a region that has these while its flat runs, and is the supervisor's alone while it waits.
    fn rights(self, running: u8) -> u8
        ensures { result ≡ rights_in self running }
    {
        match self {
            Turn::Runs => running,
            Turn::Waits => SUPERVISOR_ONLY,
        }
    }
}

// Three regions to a flat: its code, its RAM, its panel words.
#[tactic(auto, using(crate::proofs::Accepted::code_accepted, crate::proofs::Accepted::ram_accepted, crate::proofs::Accepted::panel_accepted))]
fn set_flat<B: Bus>(hub: &mut RegionCheck<B>, flat: Flat, turn: Turn) -> Result<(), Refusal>
    ensures value { result ≡ Ok tt }
    ensures regions { hub.new.table.regions ≡ flat_regions hub.old.table.regions flat turn }
    ensures rest { (hub.new.below ≡ hub.old.below) × (hub.new.background ≡ hub.old.background) }
{
    let first = flat.first_region();
    hub.set_region(first, code_region(flat, turn))?;
    hub.set_region(first + 1, ram_region(flat, turn))?;
    hub.set_region(first + 2, panel_region(flat, turn))
}

fn code_region(flat: Flat, turn: Turn) -> Setting
    ensures { result ≡ code_region flat turn }
{
    Setting {
        on: true,
        base: flat.code_base(),
        exponent: 10,
        code: turn.rights(ALL_READ),
        no_fetch: false,
        sub_marks: 0,
    }
}

fn ram_region(flat: Flat, turn: Turn) -> Setting
    ensures { result ≡ ram_region flat turn }
{
    Setting {
        on: true,
        base: flat.ram_base(),
        exponent: 10,
        code: turn.rights(ALL_WRITE),
        no_fetch: true,
        sub_marks: 0,
    }
}

// A panel fills a quarter of the smallest region, two eighths: one for each flat. A waiting flat's words are shut like
// its RAM: the temperature next door tells whether somebody is at home.
fn panel_region(flat: Flat, turn: Turn) -> Setting
    ensures { result ≡ panel_region flat turn }
{
    Setting {
        base: PANEL_BASE,
        exponent: 8,
        sub_marks: match flat {
            Flat::One => 0b1111_1110,
            Flat::Two => 0b1111_1101,
        },
        ..ram_region(flat, turn)
    }
}

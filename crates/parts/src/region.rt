// One region: the addresses it covers, and what it permits there.
ghost use Rattle.std.specs.Prelude.{◌≡◌};
ghost use Rattle.parts.specs.Region.{rights_of, is_privileged, reads, writes, region_covers, region_permits, covers, permits, region_of, off_region};

use bus::{Access, Refusal, Right, Use};

// Who may read and who may write.
#[derive(Clone, Copy, Debug, PartialEq, Eq)]
pub enum Rights {
    // nobody anything
    Nothing,
    // privileged reads and writes
    Privileged,
    // those, and unprivileged reads
    PrivilegedWrites,
    // all reads and writes
    Everything,
    // privileged reads
    PrivilegedReads,
    // all reads
    Reads,
}

impl Rights {
    fn reads(self, right: Right) -> bool
        ensures { result ≡ reads self right }
    {
        match self {
            Rights::Nothing => false,
            Rights::Privileged | Rights::PrivilegedReads => privileged(right),
            Rights::PrivilegedWrites | Rights::Everything | Rights::Reads => true,
        }
    }

    fn writes(self, right: Right) -> bool
        ensures { result ≡ writes self right }
    {
        match self {
            Rights::Nothing | Rights::PrivilegedReads | Rights::Reads => false,
            Rights::Privileged | Rights::PrivilegedWrites => privileged(right),
            Rights::Everything => true,
        }
    }
}

impl TryFrom<u8> for Rights {
    type Error = Refusal;

    ghost try_from_gives = { λ code result. result ≡ rights_of code };

    // The rights of a code: 0 to 3 and 5 to 7 mean something.
    fn try_from(code: u8) -> Result<Rights, Refusal> {
        match code {
            0 => Ok(Rights::Nothing),
            1 => Ok(Rights::Privileged),
            2 => Ok(Rights::PrivilegedWrites),
            3 => Ok(Rights::Everything),
            5 => Ok(Rights::PrivilegedReads),
            6 | 7 => Ok(Rights::Reads),
            _ => Err(Refusal::BadSetting),
        }
    }
}

pub fn privileged(right: Right) -> bool
    ensures { result ≡ is_privileged right }
{
    right == Right::Privileged
}

// A region as the host asks for it, by numbers: what no region can have is refused under a number, and a narrower type
// could not be asked for it.
#[derive(Clone, Copy, Debug, PartialEq, Eq)]
pub struct Setting {
    pub on: bool,
    pub base: u32,
    // the region has 2 ^ exponent bytes
    pub exponent: u8,
    // the code of its rights
    pub code: u8,
    pub no_fetch: bool,
    // bit i set: the i-th eighth of the region, the lowest first, is left out
    pub sub_marks: u8,
}

// The numbers of a region that was checked.
#[derive(Clone, Copy, Debug, PartialEq, Eq)]
pub struct Region {
    base: u32,
    exponent: u8,
    rights: Rights,
    no_fetch: bool,
    sub_marks: u8,
}

// One of the eight: a region that is off keeps its numbers, and covers nothing.
#[derive(Clone, Copy, Debug, PartialEq, Eq)]
pub enum Slot {
    On(Region),
    Off(Region),
}

impl Slot {
    // What no setting was made of.
    pub fn off() -> Slot
        ensures { result ≡ off_region }
    {
        Slot::Off(Region {
            base: 0,
            exponent: 0,
            rights: Rights::Nothing,
            no_fetch: false,
            sub_marks: 0,
        })
    }

    // The region of a setting. What no region can have is refused, on or off.
    pub fn of(setting: Setting) -> Result<Slot, Refusal>
        ensures { result ≡ region_of setting }
    {
        let rights = Rights::try_from(setting.code)?;
        if setting.exponent < 8 || setting.exponent > 32 {
            return Err(Refusal::BadSetting);
        }
        if u64::from(setting.base) % (1u64 << setting.exponent) != 0 {
            return Err(Refusal::BadSetting);
        }
        let region = Region {
            base: setting.base,
            exponent: setting.exponent,
            rights,
            no_fetch: setting.no_fetch,
            sub_marks: setting.sub_marks,
        };
        Ok(if setting.on {
            Slot::On(region)
        } else {
            Slot::Off(region)
        })
    }

    pub fn covers(&self, address: u32) -> bool
        ensures { result ≡ covers self.now address }
    {
        match self {
            Slot::On(region) => region.covers(address),
            Slot::Off(_) => false,
        }
    }

    // Whether the region, where it decides, lets the access pass.
    pub fn permits(&self, access: Access) -> bool
        ensures { result ≡ permits self.now access }
    {
        match self {
            Slot::On(region) | Slot::Off(region) => region.permits(access),
        }
    }
}

impl Region {
    fn covers(&self, address: u32) -> bool
        ensures { result ≡ region_covers self.now address }
    {
        // tested again: a region is its numbers alone, and the definition is right for all of them
        if self.exponent < 8 || self.exponent > 32 {
            return false;
        }
        let address = u64::from(address);
        let eighth = (address >> (self.exponent - 3)) % 8;
        address >> self.exponent == u64::from(self.base) >> self.exponent
            && (self.sub_marks >> eighth) % 2 == 0
    }

    fn permits(&self, access: Access) -> bool
        ensures { result ≡ region_permits self.now access }
    {
        match access.usage {
            Use::Fetch => self.rights.reads(access.right) && !self.no_fetch,
            Use::Read(_) => self.rights.reads(access.right),
            Use::Write(_) => self.rights.writes(access.right),
        }
    }
}

// A strip: a slice of the host's bytes at a base address, the first of them read-only.
ghost use Rattle.std.specs.Prelude.{◌≡◌, ℕ, ◌+◌, ◌-◌, ◌≤◌, length, is_ok, MatchResult};
ghost use Rattle.std.specs.Borrow.{GName};
ghost use Rattle.bus.specs.declared.refusal.Refusal.TheVariants.{BadSetting};
ghost use Rattle.bus.specs.Access.{size};
ghost use Rattle.bus.specs.Meaning.{answer};
ghost use Rattle.bus.specs.Memory.{load};
ghost use Rattle.parts.specs.Strip.{listed, inside, strip_fits, strip_bytes, strip_verdict, strip_laws};

use crate::little_endian;
use bus::{Access, Bus, Cause, Fault, Refusal, Width};

const STRIP_KIND: u8 = 1;

const LONGEST: usize = 65536;

// how many addresses there are
const ADDRESSES: u64 = 1 << 32;

#[derive(Drop)]
pub struct Strip<'a> {
    bytes: &'a mut [u8],
    base: u32,
    read_only: u32,
}

impl<'a> Strip<'a> {
    // Lends `bytes` at `base`, the first `read_only` of them not to be written.
    pub fn new(bytes: &'a mut [u8], base: u32, read_only: u32) -> Result<Strip<'a>, Refusal>
        ensures test { is_ok result ≡ strip_fits (length bytes.old) base read_only }
        ensures cases { MatchResult result (λ s. s ≡ record { bytes = bytes.entry; base = base; read_only = read_only }) (λ e. e ≡ BadSetting) }
    {
        let length = bytes.len();
        let end = u64::from(base) + length as u64;
        if length > LONGEST || end > ADDRESSES || read_only as usize > length || base % 4 != 0 {
            return Err(Refusal::BadSetting);
        }
        Ok(Strip {
            bytes,
            base,
            read_only,
        })
    }
}

impl Strip<'_> {
    // Whether the access lies wholly inside.
    fn holds(&self, access: Access) -> bool
        ensures { result ≡ inside self.now.base (length self.now.bytes.now) access }
    {
        let end = u64::from(access.address) + u64::from(access.size());
        self.base <= access.address && end <= u64::from(self.base) + self.bytes.len() as u64
    }

    // Where in the slice an allowed access begins, or the fault of a refused one. The tests after the alignment are a
    // strip's own.
    fn admit(&self, access: Access) -> Result<usize, Fault>
        ensures { result ≡ answer (strip_verdict self.now access) (access.address - self.now.base) }
    {
        access.aligned(STRIP_KIND)?;
        if !self.holds(access) {
            return Err(Fault::raise(Cause::Unmapped, access, STRIP_KIND));
        }
        let at = access.address - self.base;
        if access.usage.is_write() && at < self.read_only {
            return Err(Fault::raise(Cause::ReadOnly, access, STRIP_KIND));
        }
        Ok(at as usize)
    }

    fn value(&self, at: usize, width: Width) -> u32
        requires { at + size width ≤ length self.now.bytes.now }
        ensures { result ≡ load (size width) (listed self.now.bytes.now) at }
    {
        little_endian::get(self.bytes, at, width)
    }
}

impl<'a> Bus for Strip<'a> {
    const KIND: u8 = STRIP_KIND;

    ghost kind = { 1 };

    ghost bytes = { strip_bytes };

    ghost verdict = { strip_verdict };

    ghost Settings = { GName × (ℕ × (ℕ × ℕ)) };

    ghost settings = { λ s. (s.bytes.ghost_name, (length s.bytes.now, (s.base, s.read_only))) };

    ghost laws = { strip_laws };

    fn access(&mut self, access: Access, value: u32) -> Result<u32, Fault> {
        let at = self.admit(access)?;
        let width = access.usage.width();
        if access.usage.is_write() {
            little_endian::put(self.bytes, at, width, value);
            return Ok(0);
        }
        Ok(self.value(at, width))
    }
}

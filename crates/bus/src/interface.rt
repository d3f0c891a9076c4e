// The interface of a bus, its meaning by ghost members, and the rules as the contracts of its calls.
ghost use Rattle.std.specs.Prelude.{◌≡◌, ℕ, ◌%◌, ◌^◌, false, Ok};
ghost use Rattle.std.specs.Borrow.{GName};
ghost use Rattle.bus.specs.declared.access.Access.{Access};
ghost use Rattle.bus.specs.Access.{size, within};
ghost use Rattle.bus.specs.Memory.{Bytes, load, store};
ghost use Rattle.bus.specs.Laws.{Laws, lent_laws};
ghost use Rattle.bus.specs.Meaning.{Verdict, answer, after, replied, written, fetching, reading, writing};

use crate::access::{Access, Right, Use, Width};
use crate::fault::Fault;

pub trait Bus {
    // The number of this kind of part, put into every fault that the part raises itself.
    const KIND: u8;

    ghost kind: { ℕ };

    // The byte at each address, 0 where nothing lies.
    ghost bytes: { Self → Bytes };

    // What each access is told: allowed, or a fault.
    ghost verdict: { Self → Access → Verdict };

    // What no access changes besides.
    ghost Settings: { Type 0 };

    ghost settings: { Self → Settings };

    ghost laws: { Laws kind bytes verdict };

    // Makes one access. `value` is what a write stores, and of no account otherwise. It stands beside the access, since a
    // verdict is of an access, whatever it stores.
    fn access(&mut self, access: Access, value: u32) -> Result<u32, Fault>
        ensures value { result ≡ answer (verdict self.old access) (replied (bytes self.old) access) }
        ensures contents { bytes self.new ≡ after (verdict self.old access) (written (bytes self.old) access value) (bytes self.old) }
        ensures verdicts { verdict self.new ≡ verdict self.old }
        ensures settled { settings self.new ≡ settings self.old };

    fn fetch(&mut self, right: Right, address: u32) -> Result<u16, Fault>
        ensures value { result ≡ answer (verdict self.old (fetching right address)) (load 2 (bytes self.old) address) }
        ensures contents { bytes self.new ≡ bytes self.old }
        ensures verdicts { verdict self.new ≡ verdict self.old }
        ensures settled { settings self.new ≡ settings self.old }
    {
        let access = Access {
            usage: Use::Fetch,
            right,
            address,
        };
        let halfword = self.access(access, 0)?;
        Ok(halfword as u16)
    }

    fn read(&mut self, width: Width, right: Right, address: u32) -> Result<u32, Fault>
        ensures value { result ≡ answer (verdict self.old (reading width right address)) (load (size width) (bytes self.old) address) }
        ensures contents { bytes self.new ≡ bytes self.old }
        ensures verdicts { verdict self.new ≡ verdict self.old }
        ensures settled { settings self.new ≡ settings self.old }
    {
        let access = Access {
            usage: Use::Read(width),
            right,
            address,
        };
        self.access(access, 0)
    }

    // Where it is allowed, what is read back is the value as far as it fits, and no byte outside the access changes.
    fn write(&mut self, width: Width, right: Right, address: u32, value: u32) -> Result<(), Fault>
        ensures value { result ≡ answer (verdict self.old (writing width right address)) tt }
        ensures contents { bytes self.new ≡ after (verdict self.old (writing width right address)) (store (size width) (bytes self.old) address value) (bytes self.old) }
        ensures verdicts { verdict self.new ≡ verdict self.old }
        ensures settled { settings self.new ≡ settings self.old }
        ensures untouched { (x : ℕ) → within address (size width) x ≡ false → bytes self.new x ≡ bytes self.old x }
        ensures stored { result ≡ Ok tt → load (size width) (bytes self.new) address ≡ value % 256 ^ size width }
    {
        let access = Access {
            usage: Use::Write(width),
            right,
            address,
        };
        self.access(access, value)?;
        Ok(())
    }
}

// A bus that is lent is a bus: what it points to, asked in its place.
impl<'a, B: Bus> Bus for &'a mut B {
    const KIND: u8 = B::KIND;

    ghost kind = { B.Bus.kind };

    ghost bytes = { λ s. B.Bus.bytes s.now };

    ghost verdict = { λ s. B.Bus.verdict s.now };

    ghost Settings = { GName × B.Bus.Settings };

    ghost settings = { λ s. (s.ghost_name, B.Bus.settings s.now) };

    ghost laws = { lent_laws B.Bus.laws };

    fn access(&mut self, access: Access, value: u32) -> Result<u32, Fault> {
        (**self).access(access, value)
    }
}

// One access to a bus.
ghost use Rattle.std.specs.Prelude.{◌≡◌, None};
ghost use Rattle.bus.specs.Access.{size, width_of, is_write, misaligned};
ghost use Rattle.bus.specs.declared.fault.Cause.TheVariants.{Misaligned};
ghost use Rattle.bus.specs.Fault.{raised};
ghost use Rattle.bus.specs.Meaning.{answer, refused_if};

use crate::fault::{Cause, Fault};

#[derive(Clone, Copy, Debug, PartialEq, Eq)]
pub enum Width {
    Byte,
    Half,
    Word,
}

impl Width {
    // How many bytes an access of this width covers.
    pub fn size(self) -> u32
        ensures { result ≡ size self }
    {
        match self {
            Width::Byte => 1,
            Width::Half => 2,
            Width::Word => 4,
        }
    }
}

// What the access is for. A fetch is always of a halfword, so it has no width of its own.
#[derive(Clone, Copy, Debug, PartialEq, Eq)]
pub enum Use {
    Fetch,
    Read(Width),
    Write(Width),
}

impl Use {
    pub fn width(self) -> Width
        ensures { result ≡ width_of self }
    {
        match self {
            Use::Fetch => Width::Half,
            Use::Read(width) | Use::Write(width) => width,
        }
    }

    pub fn is_write(self) -> bool
        ensures { result ≡ is_write self }
    {
        matches!(self, Use::Write(_))
    }
}

// With whose right the access is made.
#[derive(Clone, Copy, Debug, PartialEq, Eq)]
pub enum Right {
    Privileged,
    Unprivileged,
}

#[derive(Clone, Copy, Debug, PartialEq, Eq)]
pub struct Access {
    pub usage: Use,
    pub right: Right,
    pub address: u32,
}

impl Access {
    // How many bytes it covers, from its address on.
    pub fn size(&self) -> u32
        ensures { result ≡ size (width_of self.now.usage) }
    {
        self.usage.width().size()
    }

    // Whether its address is no multiple of its width.
    pub fn is_misaligned(&self) -> bool
        ensures { result ≡ misaligned self.now }
    {
        match self.usage.width() {
            Width::Byte => false,
            Width::Half => self.address % 2 != 0,
            Width::Word => self.address % 4 != 0,
        }
    }

    // Nothing, or the fault of a part of this kind where the access is misaligned. Every part asks this first.
    pub fn aligned(self, kind: u8) -> Result<(), Fault>
        ensures { result ≡ answer (refused_if (misaligned self) (raised Misaligned self kind) None) tt }
    {
        if self.is_misaligned() {
            return Err(Fault::raise(Cause::Misaligned, self, kind));
        }
        Ok(())
    }
}

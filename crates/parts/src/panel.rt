// A panel: sixteen words that the host and the program share.
ghost use Rattle.std.specs.Prelude.{◌≡◌, ℕ, ◌/◌, ◌%◌, ◌<◌, if◌then◌else◌, Ok, Err, nat_lt, slice_index, slice_set};
ghost use Rattle.bus.specs.declared.refusal.Refusal.TheVariants.{OutOfRange};
ghost use Rattle.bus.specs.Meaning.{answer};
ghost use Rattle.parts.specs.Panel.{built_panel, panel_bytes, panel_verdict, panel_laws};

use bus::{Access, Bus, Cause, Fault, Refusal, Width};

const PANEL_KIND: u8 = 2;

// A panel fills the block of this many bytes that its base lies in.
const PANEL_SIZE: u32 = 64;

#[derive(Drop)]
pub struct Panel {
    words: [u32; 16],
    base: u32,
}

impl Panel {
    pub fn new(base: u32) -> Result<Panel, Refusal>
        ensures { result ≡ built_panel base }
    {
        if base % PANEL_SIZE != 0 {
            return Err(Refusal::BadSetting);
        }
        Ok(Panel {
            words: [0; 16],
            base,
        })
    }

    // All sixteen, in order.
    pub fn words(&self) -> &[u32; 16]
        ensures { result.now ≡ self.now.words }
    {
        &self.words
    }

    pub fn word(&self, index: u32) -> Result<u32, Refusal>
        ensures { result ≡ (if nat_lt index 16 then Ok (slice_index self.now.words index) else Err OutOfRange) }
    {
        self.words
            .get(index as usize)
            .copied()
            .ok_or(Refusal::OutOfRange)
    }

    pub fn set_word(&mut self, index: u32, value: u32) -> Result<(), Refusal>
        ensures value { result ≡ (if nat_lt index 16 then Ok tt else Err OutOfRange) }
        ensures words { self.new.words ≡ (if nat_lt index 16 then slice_set self.old.words index value else self.old.words) }
        ensures base { self.new.base ≡ self.old.base }
    {
        if index > 15 {
            return Err(Refusal::OutOfRange);
        }
        self.words[index as usize] = value;
        Ok(())
    }

    // The index of the word that an allowed access is for, or the fault of a refused one.
    fn admit(&self, access: Access) -> Result<usize, Fault>
        ensures { result ≡ answer (panel_verdict self.now access) (access.address % 64 / 4) }
    {
        access.aligned(PANEL_KIND)?;
        if access.address / PANEL_SIZE != self.base / PANEL_SIZE {
            return Err(Fault::raise(Cause::Unmapped, access, PANEL_KIND));
        }
        match access.usage.width() {
            Width::Word => Ok((access.address % PANEL_SIZE / 4) as usize),
            Width::Half | Width::Byte => Err(Fault::raise(Cause::WrongWidth, access, PANEL_KIND)),
        }
    }
}

impl Bus for Panel {
    const KIND: u8 = PANEL_KIND;

    ghost kind = { 2 };

    ghost bytes = { panel_bytes };

    ghost verdict = { panel_verdict };

    ghost Settings = { ℕ };

    ghost settings = { λ s. s.base };

    ghost laws = { panel_laws };

    fn access(&mut self, access: Access, value: u32) -> Result<u32, Fault> {
        let at = self.admit(access)?;
        if access.usage.is_write() {
            self.words[at] = value;
            return Ok(0);
        }
        Ok(self.words[at])
    }
}

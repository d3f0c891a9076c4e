// The flats, and where each one's things lie.
ghost use Rattle.std.specs.Prelude.{◌≡◌};
ghost use Rattle.memory.specs.Flats.{flat_number, neighbour, code_base, ram_base, panel_word, first_region};

#[derive(Clone, Copy, Debug, PartialEq, Eq)]
pub enum Flat {
    One = 1,
    Two = 2,
}

impl Flat {
    pub fn number(self) -> u32
        ensures { result ≡ flat_number self }
    {
        self as u32
    }

    pub(crate) fn neighbour(self) -> Flat
        ensures { result ≡ neighbour self }
    {
        match self {
            Flat::One => Flat::Two,
            Flat::Two => Flat::One,
        }
    }

    // Where a flat's things lie is read off as in a table: arithmetic on its number would say it less plainly.
    pub fn code_base(self) -> u32
        ensures { result ≡ code_base self }
    {
        match self {
            Flat::One => 0x0000_0400,
            Flat::Two => 0x0000_0800,
        }
    }

    pub fn ram_base(self) -> u32
        ensures { result ≡ ram_base self }
    {
        match self {
            Flat::One => 0x2000_0400,
            Flat::Two => 0x2000_0800,
        }
    }

    pub(crate) fn first_region(self) -> u32
        ensures { result ≡ first_region self }
    {
        match self {
            Flat::One => 0,
            Flat::Two => 3,
        }
    }

    // The first of the flat's eight words on the panel.
    pub fn panel_word(self) -> u32
        ensures { result ≡ panel_word self }
    {
        match self {
            Flat::One => 0,
            Flat::Two => 8,
        }
    }
}

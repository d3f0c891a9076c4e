// What can be asked for.
ghost use Rattle.options.specs.Counts.{From1};
ghost use Rattle.options.specs.declared.count.Count.TheVariants.{Steps, Tick, Turns};

#[derive(Clone, Copy, Debug, PartialEq, Eq)]
pub struct Options<'a> {
    // the image's file; without one the image is the built-in one
    pub image: Option<&'a str>,
    pub steps: u32,
    pub tick: u32,
    pub turns: u32,
    pub trace: bool,
    pub ghost steps_ranged: { From1 steps Steps },
    pub ghost tick_ranged: { From1 tick Tick },
    pub ghost turns_ranged: { From1 turns Turns },
}

#[derive(Clone, Copy, Debug, PartialEq, Eq)]
pub enum Asked<'a> {
    Help,
    Run(Options<'a>),
    // play a script of accesses, the built-in one where no file is named
    Script(Option<&'a str>),
}

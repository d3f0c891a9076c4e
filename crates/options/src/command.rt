// What the command line asks for.
ghost use Rattle.options.specs.Ranges.{AllRanged};

use crate::asked::{Asked, Options};
use crate::count::Count;
use crate::mistake::Mistake;

// What is asked for by the words after the program's name; by none, a run with the built-in image.
pub fn parse(words: &[String]) -> Result<Asked<'_>, Mistake<'_>>
    ensures { AllRanged result }
{
    let Some(command) = words.first() else {
        return parse_run(words);
    };
    match command.as_str() {
        "run" => parse_run(&words[1..]),
        "script" => parse_script(&words[1..]),
        "--help" => Ok(Asked::Help),
        found => Err(Mistake::Command(found)),
    }
}

fn parse_script(words: &[String]) -> Result<Asked<'_>, Mistake<'_>>
    ensures { AllRanged result }
{
    match words {
        [] => Ok(Asked::Script(None)),
        [file] => Ok(Asked::Script(Some(file.as_str()))),
        [_, extra, ..] => Err(Mistake::Extra(extra.as_str())),
    }
}

fn parse_run(words: &[String]) -> Result<Asked<'_>, Mistake<'_>>
    ensures { AllRanged result }
{
    let mut options = Options {
        image: None,
        steps: 500,
        tick: 150,
        turns: 4,
        trace: false,
    };
    let mut words = words.iter().map(|word| word.as_str());
    while let Some(word) = words.next() {
        match word {
            "--steps" => set_count(&mut options, Count::Steps, words.next())?,
            "--tick" => set_count(&mut options, Count::Tick, words.next())?,
            "--turns" => set_count(&mut options, Count::Turns, words.next())?,
            "--trace" => options.trace = true,
            "--help" => return Ok(Asked::Help),
            word => set_image(&mut options, word)?,
        }
    }
    Ok(Asked::Run(options))
}

fn set_count<'a>(
    options: &mut Options<'a>,
    count: Count,
    found: Option<&'a str>,
) -> Result<(), Mistake<'a>> {
    let value = found.and_then(|word| count.value(word));
    let n = value.ok_or(Mistake::Value(count, found))?;
    match count {
        Count::Steps => options.steps = n,
        Count::Tick => options.tick = n,
        Count::Turns => options.turns = n,
    }
    Ok(())
}

fn set_image<'a>(options: &mut Options<'a>, word: &'a str) -> Result<(), Mistake<'a>> {
    if word.starts_with('-') {
        return Err(Mistake::Option(word));
    }
    if options.image.is_some() {
        return Err(Mistake::Extra(word));
    }
    options.image = Some(word);
    Ok(())
}

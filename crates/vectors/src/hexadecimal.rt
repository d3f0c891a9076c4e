// A number of a line.
ghost use Rattle.std.specs.Str.Parse.{ParsesUpTo};

use crate::case::Mistake;

// One hexadecimal digit or more, and no sign.
pub fn number(text: &str) -> Result<u32, Mistake>
    ensures { ParsesUpTo 0xffff_ffff 16 text.now result }
{
    // from_str_radix would take a sign
    if text.starts_with('+') {
        return Err(Mistake::NotANumber);
    }
    u32::from_str_radix(text, 16).map_err(|_| Mistake::NotANumber)
}

//! What a Thumb halfword, or two, means in Armv6-M.
#![tactic(auto)]

ghost use Rattle.std.specs.Prelude.{◌≡◌};
ghost use Rattle.thumb.specs.Decoded.{decoded, wide_first};
ghost use Rattle.thumb.specs.Laws.{Apart, OperandsStand, ToldByItsTable};
ghost use Rattle.thumb.specs.Rows.{narrow_rows, wide_rows};

pub mod instructions;
mod narrow;
mod wide;

use instructions::{Instruction, Refusal};
use narrow::narrow;
use wide::wide;

/// Whether a second halfword belongs to this first one.
pub fn is_wide(first: u16) -> bool
    ensures { result ≡ wide_first first }
{
    first >> 11 >= 0b11101
}

/// The instruction that a first halfword encodes, with the second where that belongs to it.
pub fn decode(first: u16, second: u16) -> Result<Instruction, Refusal>
    ensures value { result ≡ decoded first second }
    ensures told { ToldByItsTable first second result }
    ensures apart { (Apart narrow_rows) × (Apart wide_rows) }
    ensures operands { OperandsStand result }
{
    if is_wide(first) {
        wide(u32::from(first) * 65536 + u32::from(second))
    } else {
        narrow(u32::from(first))
    }
}

// Requests as text.
ghost use Rattle.std.specs.Prelude.{◌≡◌, ◌*◌};
ghost use Rattle.bus.specs.Access.{size};
ghost use Rattle.commands.specs.Words.{right_word, width_word};

use crate::parse::Request;
use bus::{Right, Use, Width};
use std::fmt;

// Words that a contract states are functions: of what a Display writes no contract speaks.
fn right_word(right: Right) -> &'static str
    ensures { result.now ≡ right_word right }
{
    match right {
        Right::Privileged => "privileged",
        Right::Unprivileged => "unprivileged",
    }
}

fn width_word(width: Width) -> &'static str
    ensures { result.now ≡ width_word width }
{
    match width {
        Width::Byte => "byte",
        Width::Half => "half",
        Width::Word => "word",
    }
}

// How many hexadecimal digits a value of this width has.
pub fn digits(width: Width) -> usize
    ensures { result ≡ 2 * size width }
{
    2 * width.size() as usize
}

impl fmt::Display for Request {
    fn fmt<W: fmt::Write>(&self, f: &mut fmt::Formatter<W>) -> fmt::Result {
        let right = right_word(self.access.right);
        let address = self.access.address;
        match self.access.usage {
            Use::Fetch => write!(f, "{right:<12}  fetch        0x{address:08x}"),
            Use::Read(width) => {
                let width = width_word(width);
                write!(f, "{right:<12}  read   {width}  0x{address:08x}")
            }
            Use::Write(width) => {
                let digits = digits(width);
                let width = width_word(width);
                let value = self.value;
                write!(
                    f,
                    "{right:<12}  write  {width}  0x{address:08x}  0x{value:0digits$x}"
                )
            }
        }
    }
}

// Scripts: one command to a line, read word by word.
ghost use Rattle.std.specs.Prelude.{◌≡◌, ◌+◌, ◌^◌};
ghost use Rattle.bus.specs.Access.{size};

use bus::{Access, Right, Use, Width};
use memory::Flat;
use std::fmt;
use std::str::SplitWhitespace;
use thiserror::Error;

// One access, with what a write stores: nothing looks at it otherwise.
#[derive(Clone, Copy, Debug, PartialEq, Eq)]
pub struct Request {
    pub access: Access,
    pub value: u32,
}

#[derive(Clone, Copy, Debug, PartialEq, Eq)]
pub enum Command {
    // make this access
    Ask(Request),
    // the supervisor hands the regions to this flat
    HandTo(Flat),
}

// What a line should have had where it went wrong.
#[derive(Clone, Copy, Debug, PartialEq, Eq, Error)]
pub enum Wanted {
    #[error("`privileged`, `unprivileged` or `flat`")]
    Command,
    #[error("`fetch`, `read` or `write`")]
    Usage,
    #[error("`byte`, `half` or `word`")]
    Width,
    #[error("an address from 0 to 0xffffffff")]
    Address,
    #[error("a value from 0 to 0x{most:x}", most = largest(*.0))]
    Value(Width),
    #[error("`1` or `2`")]
    Flat,
    #[error("the end of the line")]
    End,
}

// Why a line is no command. Nothing was found where the line ended too early.
#[derive(Clone, Copy, Debug, PartialEq, Eq)]
pub struct Mistake<'a> {
    wanted: Wanted,
    found: Option<&'a str>,
}

impl Wanted {
    fn in_place_of(self, found: Option<&str>) -> Mistake<'_> {
        Mistake {
            wanted: self,
            found,
        }
    }
}

impl<'a> fmt::Display for Mistake<'a> {
    fn fmt<W: fmt::Write>(&self, f: &mut fmt::Formatter<W>) -> fmt::Result {
        let wanted = self.wanted;
        match self.found {
            Some(word) => write!(f, "expected {wanted}, found `{word}`"),
            None => write!(f, "expected {wanted}, found the end of the line"),
        }
    }
}

// The greatest value that an access of this width can store.
fn largest(width: Width) -> u32
    ensures { result + 1 ≡ 256 ^ size width }
{
    match width {
        Width::Byte => 0xff,
        Width::Half => 0xffff,
        Width::Word => 0xffff_ffff,
    }
}

// Whether a line is passed over: it is blank, or a remark.
pub fn is_remark(line: &str) -> bool {
    let text = line.trim();
    text.is_empty() || text.starts_with('#')
}

pub fn read_line(line: &str) -> Result<Command, Mistake<'_>> {
    let mut words = line.split_whitespace();
    let command = match words.next() {
        Some("flat") => Command::HandTo(parse_flat(words.next())?),
        Some("privileged") => Command::Ask(parse_request(Right::Privileged, &mut words)?),
        Some("unprivileged") => Command::Ask(parse_request(Right::Unprivileged, &mut words)?),
        found => return Err(Wanted::Command.in_place_of(found)),
    };
    match words.next() {
        None => Ok(command),
        found => Err(Wanted::End.in_place_of(found)),
    }
}

fn parse_request<'a>(
    right: Right,
    words: &mut SplitWhitespace<'a>,
) -> Result<Request, Mistake<'a>> {
    let usage = match words.next() {
        Some("fetch") => Use::Fetch,
        Some("read") => Use::Read(parse_width(words.next())?),
        Some("write") => Use::Write(parse_width(words.next())?),
        found => return Err(Wanted::Usage.in_place_of(found)),
    };
    let address = parse_number(words.next(), u32::MAX, Wanted::Address)?;
    let value = match usage {
        Use::Write(width) => parse_number(words.next(), largest(width), Wanted::Value(width))?,
        Use::Fetch | Use::Read(_) => 0,
    };
    Ok(Request {
        access: Access {
            usage,
            right,
            address,
        },
        value,
    })
}

// Functions and no `FromStr`: `Flat` and `Width` are declared in other crates.
fn parse_flat(found: Option<&str>) -> Result<Flat, Mistake<'_>> {
    match found {
        Some("1") => Ok(Flat::One),
        Some("2") => Ok(Flat::Two),
        _ => Err(Wanted::Flat.in_place_of(found)),
    }
}

fn parse_width(found: Option<&str>) -> Result<Width, Mistake<'_>> {
    match found {
        Some("byte") => Ok(Width::Byte),
        Some("half") => Ok(Width::Half),
        Some("word") => Ok(Width::Word),
        _ => Err(Wanted::Width.in_place_of(found)),
    }
}

// A number up to `most`.
fn parse_number(found: Option<&str>, most: u32, wanted: Wanted) -> Result<u32, Mistake<'_>> {
    let named = found.and_then(number).filter(|n| *n <= most);
    named.ok_or(wanted.in_place_of(found))
}

// A number in decimal, or in hexadecimal after `0x`.
fn number(word: &str) -> Option<u32> {
    let (digits, radix) = match word.strip_prefix("0x") {
        Some(digits) => (digits, 16),
        None => (word, 10),
    };
    // from_str_radix would take a sign
    if digits.starts_with('+') {
        return None;
    }
    u32::from_str_radix(digits, radix).ok()
}

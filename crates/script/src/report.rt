// What is printed: the memory's map, each line's question and answer, the counts, the bytes that changed.
ghost use Rattle.std.specs.Prelude.{◌≡◌, ℕ, ◌<◌, ◌≤◌, length, ◌≢◌, slice_index};
ghost use Rattle.script.specs.Words.{flat_words};

use crate::play::{Answer, Tally, Value};
use commands::{Mistake, Request, digits};
use memory::{FLASH_BASE, FLASH_SIZE, Flat, PANEL_BASE, RAM_BASE, RAM_SIZE};
use std::{fmt, io};
use terms::FaultText;

impl fmt::Display for Value {
    fn fmt<W: fmt::Write>(&self, f: &mut fmt::Formatter<W>) -> fmt::Result {
        let value = self.value;
        let digits = digits(self.width);
        write!(f, "0x{value:0digits$x}")
    }
}

// A function, and no Display, of which no contract speaks.
fn flat_words(flat: Flat) -> &'static str
    ensures { result.now ≡ flat_words flat }
{
    match flat {
        Flat::One => "flat 1",
        Flat::Two => "flat 2",
    }
}

pub fn print_map(rt: &HostRuntime) -> io::Result<()> {
    println!(rt; "A cellar hub's memory")?;
    println!(rt; "  flash  0x{FLASH_BASE:08x}  {FLASH_SIZE} bytes, read-only")?;
    println!(rt; "  RAM    0x{RAM_BASE:08x}  {RAM_SIZE} bytes")?;
    println!(rt; "  panel  0x{PANEL_BASE:08x}  16 words")?;
    println!(rt)?;
    println!(rt; "line  asked                                              answered")
}

pub fn print_request(
    rt: &HostRuntime,
    number: usize,
    request: Request,
    answer: Answer,
) -> io::Result<()> {
    let asked = format!(in rt.alloc(); "{request}")?;
    // a line is printed whole, by one call
    match answer {
        Ok(Some(value)) => println!(rt; "{number:>4}  {asked:<49}  {value}"),
        Ok(None) => println!(rt; "{number:>4}  {asked:<49}  written"),
        Err(fault) => {
            let fault = FaultText(fault);
            println!(rt; "{number:>4}  {asked:<49}  refused: {fault}")
        }
    }
}

pub fn print_handing(rt: &HostRuntime, number: usize, flat: Flat) -> io::Result<()> {
    let code = flat.code_base();
    let ram = flat.ram_base();
    let word = flat.panel_word();
    let flat = flat_words(flat);
    println!(rt;
        "{number:>4}  {flat:<49}  has code at 0x{code:x}, RAM at 0x{ram:x} and eight panel words from {word} on"
    )
}

pub fn print_mistake(rt: &HostRuntime, number: usize, mistake: Mistake<'_>) -> io::Result<()> {
    println!(rt; "{number:>4}  bad line: {mistake}")
}

pub fn print_tally(rt: &HostRuntime, tally: Tally) -> io::Result<()> {
    let played = tally.played();
    let allowed = tally.allowed;
    let refused = tally.refused;
    let handed = tally.handed;
    let bad = tally.bad;
    println!(rt; "Lines")?;
    println!(rt; "  played   {played:>5}")?;
    println!(rt; "  allowed  {allowed:>5}")?;
    println!(rt; "  refused  {refused:>5}")?;
    println!(rt; "  handed   {handed:>5}  to a flat")?;
    println!(rt; "  bad      {bad:>5}")
}

// How many bytes of a run of changes stand on one line.
const TO_A_LINE: usize = 16;

// Prints the bytes from `base` on that changed, neighbours on one line.
pub fn print_changes(rt: &HostRuntime, base: u32, before: &[u8], after: &[u8]) -> io::Result<()> {
    let (mut before, mut after) = (before, after);
    let mut address = u64::from(base);
    // no iterator: a run of changes ends at the first byte that is the same, and after sixteen
    while !before.is_empty() && !after.is_empty() {
        let changed = leading_changes(before, after).min(TO_A_LINE);
        // a byte that did not change is passed over
        let passed = changed.max(1);
        let (old, old_rest) = before.split_at(passed);
        let (new, new_rest) = after.split_at(passed);
        if changed > 0 {
            let old = Bytes(old);
            let new = Bytes(new);
            println!(rt; "  0x{address:08x}  before{old}  after{new}")?;
        }
        before = old_rest;
        after = new_rest;
        address = address.saturating_add(passed as u64);
    }
    Ok(())
}

// How many bytes changed before the first that did not.
fn leading_changes(before: &[u8], after: &[u8]) -> usize
    ensures within { (result ≤ length before.now) × (result ≤ length after.now) }
    ensures changed { (k : ℕ) → k < result → slice_index before.now k ≢ slice_index after.now k }
    ensures kept { result < length before.now → result < length after.now → slice_index before.now result ≡ slice_index after.now result }
{
    let shorter = before.len().min(after.len());
    let mut pairs = before.iter().zip(after.iter());
    pairs.position(|(old, new)| old == new).unwrap_or(shorter)
}

// Bytes in hexadecimal, a blank before each.
#[derive(Clone, Copy)]
struct Bytes<'a>(&'a [u8]);

impl<'a> fmt::Display for Bytes<'a> {
    fn fmt<W: fmt::Write>(&self, f: &mut fmt::Formatter<W>) -> fmt::Result {
        for byte in self.0 {
            write!(f, " {byte:02x}")?;
        }
        Ok(())
    }
}

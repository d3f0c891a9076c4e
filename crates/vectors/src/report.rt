// What is counted and printed.
use crate::case::Mistake;
use std::io;

// How many differences, and how many malformed lines, are printed.
const MOST: u64 = 50;

#[derive(Clone, Copy, Debug, Default, PartialEq, Eq)]
struct Count {
    cases: u64,
    agreed: u64,
}

impl Count {
    fn note(&mut self, agrees: bool) {
        self.cases = self.cases.saturating_add(1);
        self.agreed = self.agreed.saturating_add(u64::from(agrees));
    }

    fn print(self, rt: &HostRuntime, name: &str) -> io::Result<()> {
        let cases = self.cases;
        let agreed = self.agreed;
        println!(rt; "{agreed} of {cases} agree: {name}")
    }
}

// Counts one more, which is printed if it is one of the first.
fn is_printed(count: &mut u64) -> bool {
    *count = count.saturating_add(1);
    *count <= MOST
}

// Counts alone: what prints takes the handle beside it, since a count needs none.
#[derive(Default, Drop)]
pub struct Report {
    // the line that is played
    line: u64,
    of_form: Count,
    of_all: Count,
    differences: u64,
    malformed: u64,
}

impl Report {
    // counted here, where the messages need it, and not handed through the functions that hold
    pub fn begin_line(&mut self) {
        self.line = self.line.saturating_add(1);
    }

    pub fn differences(&self) -> u64 {
        self.differences
    }

    // One more case.
    pub fn count(&mut self, agrees: bool) {
        self.of_form.note(agrees);
        self.of_all.note(agrees);
    }

    // A field of the case.
    pub fn hold<T: Into<u64>>(
        &mut self,
        rt: &HostRuntime,
        field: &str,
        expected: T,
        found: T,
    ) -> io::Result<()> {
        let expected: u64 = expected.into();
        let found: u64 = found.into();
        if expected == found {
            return Ok(());
        }
        if !is_printed(&mut self.differences) {
            return Ok(());
        }
        let line = self.line;
        println!(rt; "line {line}: {field} is {found:x} and should be {expected:x}")
    }

    pub fn mistake(&mut self, rt: &HostRuntime, mistake: Mistake) -> io::Result<()> {
        if !is_printed(&mut self.malformed) {
            return Ok(());
        }
        let line = self.line;
        println!(rt; "line {line}: {mistake}")
    }

    // The cases since the last form.
    pub fn end_form(&mut self, rt: &HostRuntime, form: &str) -> io::Result<()> {
        let count = self.of_form;
        self.of_form = Count::default();
        if count.cases == 0 {
            return Ok(());
        }
        count.print(rt, form)
    }

    pub fn is_clean(&self) -> bool {
        self.differences == 0 && self.malformed == 0
    }

    // The totals.
    pub fn end(&self, rt: &HostRuntime) -> io::Result<()> {
        let differences = self.differences;
        let malformed = self.malformed;
        self.of_all.print(rt, "all forms")?;
        println!(rt; "{differences} differences, {malformed} malformed lines")
    }
}

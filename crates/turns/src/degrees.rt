// The panel's temperatures, in degrees.
use parts::Panel;
use std::{fmt, io};

// A temperature in tenths of a degree.
#[derive(Clone, Copy)]
struct Tenths(i64);

impl fmt::Display for Tenths {
    fn fmt<W: fmt::Write>(&self, f: &mut fmt::Formatter<W>) -> fmt::Result {
        let sign = if self.0 < 0 { "-" } else { "" };
        let magnitude = self.0.unsigned_abs();
        let degrees = magnitude / 10;
        let tenth = magnitude % 10;
        write!(f, "{sign}{degrees}.{tenth}")
    }
}

fn print_temperature(rt: &HostRuntime, tenths: i64) -> io::Result<()> {
    let tenths = Tenths(tenths);
    let text = format!(in rt.alloc(); "{tenths}")?;
    print!(rt; " {text:>10}")
}

// Prints the sixteen words as degrees, four to a line, and their sum.
pub fn print_degrees(rt: &HostRuntime, panel: &Panel) -> io::Result<()> {
    for (row, words) in panel.words().chunks(4).enumerate() {
        let first = 4 * row;
        print!(rt; "  {first:>3}")?;
        for word in words {
            print_temperature(rt, i64::from(runs::tenths_of(*word)))?;
        }
        println!(rt)?;
    }
    print!(rt; "  sum")?;
    print_temperature(rt, runs::sum_of_tenths(panel))?;
    println!(rt)
}

// Both tallies of some steps, as one kind.
use runs::{Counts, FaultSpan};
use std::io;

// The counts of the answers, and the span of the faults.
pub type Tallies = (Counts, Option<FaultSpan>);

pub fn print_tallies(rt: &HostRuntime, tallies: Tallies) -> io::Result<()> {
    let (counts, faults) = tallies;
    print_counted(rt, counts)?;
    match faults {
        Some(FaultSpan { least, greatest }) => println!(rt;
            "  fault addresses from 0x{least:08x} to 0x{greatest:08x}"
        ),
        None => println!(rt; "  no fault"),
    }
}

fn print_counted(rt: &HostRuntime, counts: Counts) -> io::Result<()> {
    let Counts {
        ran,
        entered,
        returned,
        faulted,
        locked,
    } = counts;
    println!(rt;
        "  ran {ran}, entered {entered}, returned {returned}, faulted {faulted}, locked {locked}"
    )
}

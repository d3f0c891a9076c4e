// A core before a call, with the encoding that its PC points to.
ghost use Rattle.std.specs.Prelude.{◌≡◌};
ghost use Rattle.bus.specs.Made.{Leaves};
ghost use Rattle.trace.specs.Seen.{piece_at};

use arch::Registers;
use bus::{Bus, Right};
use listing::Piece;
use thumb::is_wide;

#[derive(Clone, Copy, Debug, PartialEq, Eq)]
pub struct Seen {
    pub registers: Registers,
    // nothing where no fetch is allowed
    pub piece: Option<Piece>,
}

pub fn look<B: Bus>(bus: &mut B, registers: &Registers) -> Seen
    ensures leaves { Leaves B.Bus bus.old bus.new }
    ensures value { result ≡ record { registers = registers.entry.now; piece = piece_at (B.Bus.bytes bus.old) (B.Bus.verdict bus.old) registers.entry.now.pc } }
{
    Seen {
        registers: *registers,
        piece: piece_at(bus, registers.pc),
    }
}

// What stands at an address, as the host may fetch it.
fn piece_at<B: Bus>(bus: &mut B, address: u32) -> Option<Piece>
    ensures leaves { Leaves B.Bus bus.old bus.new }
    ensures value { result ≡ piece_at (B.Bus.bytes bus.old) (B.Bus.verdict bus.old) address }
{
    let first = bus.fetch(Right::Privileged, address).ok()?;
    if !is_wide(first) {
        return Some(Piece::Narrow(first));
    }
    match bus.fetch(Right::Privileged, address.wrapping_add(2)) {
        Ok(second) => Some(Piece::Wide(first, second)),
        Err(_) => Some(Piece::Cut(first)),
    }
}

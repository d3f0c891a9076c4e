// Taking up an exception.
ghost use Rattle.std.specs.Prelude.{◌≡◌, None, Ok};
ghost use Rattle.bus.specs.Made.{Makes};
ghost use Rattle.arch.specs.Accesses.{try_words};
ghost use Rattle.arch.specs.Entry.{frame_of, frame_words as frame_words_of, return_value as return_value_of, entered, is_last, stack_frame as stack_frame_of, take_last as take_last_of, take_other as take_other_of, take_up as take_up_of};
ghost use Rattle.arch.specs.Status.{frame_status};
ghost use Rattle.arch.specs.declared.answers.Completed.TheVariants.{Stepped};

use arch::{Answer, Registers};
use bus::{Bus, Fault, Right, Width};

const NMI: u8 = 2;

pub const HARD_FAULT: u8 = 3;

fn frame_address(r: &Registers) -> u32
    ensures { result ≡ frame_of r.now }
{
    state::stack_pointer(r).wrapping_sub(32) / 8 * 8
}

// xPSR, with bit 2 of the stack pointer in bit 9.
fn stacked_status(r: &Registers, padded: bool) -> u32
    ensures { result ≡ frame_status r.now padded }
{
    let number = u32::from(r.current);
    exec::flags_word(r.flags)
        + u32::from(r.thumb) * 0x0100_0000
        + u32::from(padded) * 0x200
        + number
}

fn frame_words(r: &Registers) -> [u32; 8]
    ensures { result ≡ frame_words_of r.now }
{
    let [r0, r1, r2, r3, _, _, _, _, _, _, _, _, r12] = r.general;
    let padded = word::bit(state::stack_pointer(r), 2);
    [r0, r1, r2, r3, r12, r.lr, r.pc, stacked_status(r, padded)]
}

// All the words from `x` upward, whatever is refused; the first refusal.
fn stack_words<B: Bus>(bus: &mut B, right: Right, words: [u32; 8], x: u32) -> Option<Fault>
    ensures { Makes B.Bus bus.old bus.new (try_words right None words x) result }
{
    let mut first = None;
    for (i, word) in words.iter().enumerate() {
        let at = x.wrapping_add(4 * i as u32);
        first = first.or(bus.write(Width::Word, right, at, *word).err());
    }
    first
}

// EXC_RETURN for the interrupted mode.
fn return_value(r: &Registers) -> u32
    ensures { result ≡ return_value_of r.now }
{
    if state::handler(r) {
        0xffff_fff1
    } else if r.control.spsel {
        0xffff_fffd
    } else {
        0xffff_fff9
    }
}

// The exception is current and active, and its handler begins at the vector.
fn enter(r: &mut Registers, number: u8, vector: u32) -> Answer
    ensures leaves { r.new ≡ entered r.old number vector }
    ensures answers { result ≡ Answer.Entered number }
{
    let link = return_value(r);
    let frame = frame_address(r);
    state::set_stack_pointer(r, frame);
    r.lr = link;
    r.control.spsel = false;
    r.current = number;
    r.exceptions.pending = word::without(r.exceptions.pending, u32::from(number));
    r.exceptions.active = word::with(r.exceptions.active, u32::from(number));
    state::interwork(r, vector);
    Answer::Entered(number)
}

// NMI and HardFault have nothing in their place: a refused vector locks the core.
fn take_last<B: Bus>(r: &mut Registers, bus: &mut B, number: u8) -> Answer
    ensures { Makes B.Bus bus.old bus.new (take_last_of r.old number) (Ok (Stepped result), r.new) }
{
    match bus.read(Width::Word, Right::Privileged, 4 * u32::from(number)) {
        Ok(vector) => enter(r, number, vector),
        Err(fault) => {
            r.locked = true;
            Answer::Locked(fault)
        }
    }
}

// Another exception gives way to HardFault where its vector or a word of its frame is refused: what a refusal leads to is
// what tells this from `take_last`.
fn take_other<B: Bus>(r: &mut Registers, bus: &mut B, number: u8, refused: Option<Fault>) -> Answer
    ensures { Makes B.Bus bus.old bus.new (take_other_of r.old number refused) (Ok (Stepped result), r.new) }
{
    if refused.is_some() {
        return take_last(r, bus, HARD_FAULT);
    }
    match bus.read(Width::Word, Right::Privileged, 4 * u32::from(number)) {
        Ok(vector) => enter(r, number, vector),
        Err(_) => take_last(r, bus, HARD_FAULT),
    }
}

fn is_last(number: u8) -> bool
    ensures { result ≡ is_last number }
{
    number == NMI || number == HARD_FAULT
}

// The frame goes with the right of the interrupted mode, all of it, whatever is refused.
fn stack_frame<B: Bus>(r: &Registers, bus: &mut B) -> Option<Fault>
    ensures { Makes B.Bus bus.old bus.new (stack_frame_of r.now) result }
{
    stack_words(bus, state::right(r), frame_words(r), frame_address(r))
}

pub fn take_up<B: Bus>(r: &mut Registers, bus: &mut B, number: u8) -> Answer
    ensures { Makes B.Bus bus.old bus.new (take_up_of r.old number) (Ok (Stepped result), r.new) }
{
    let refused = stack_frame(r, bus);
    if is_last(number) {
        return take_last(r, bus, number);
    }
    take_other(r, bus, number, refused)
}

// Which exception goes first. A lower number is a higher priority.
ghost use Rattle.std.specs.Prelude.{◌≡◌, slice_index};
ghost use Rattle.arch.specs.Priorities.{priority as priority_of, execution_priority, least_active, counts, better, best, chosen as chosen_of, if_below};

use arch::Registers;

const NMI: u8 = 2;

const HARD_FAULT: u8 = 3;

// The numbers of exceptions are below this.
const NUMBERS: u8 = 48;

fn rank(r: &Registers, n: u8) -> u8
    ensures { result ≡ slice_index r.now.exceptions.ranks n }
{
    r.exceptions.ranks.get(n as usize).copied().unwrap_or(0)
}

pub fn priority(r: &Registers, n: u8) -> i32
    ensures { result ≡ priority_of r.now n }
{
    match n {
        NMI => -2,
        HARD_FAULT => -1,
        _ => 64 * i32::from(rank(r, n)),
    }
}

// Here and in `best_pending` a loop and no fold: the definitions recur as it does.
fn least_active(r: &Registers) -> i32
    ensures { result ≡ least_active 48 r.now }
{
    let mut least = 256;
    for n in 0..NUMBERS {
        if word::has(r.exceptions.active, u32::from(n)) {
            least = least.min(priority(r, n));
        }
    }
    least
}

// The least priority of the active exceptions; at most 0 with PRIMASK set.
pub fn execution_priority(r: &Registers) -> i32
    ensures { result ≡ execution_priority r.now }
{
    let least = least_active(r);
    if r.primask { least.min(0) } else { least }
}

// Whether an exception counts as pending: an external one only when it is armed.
fn counts_pending(r: &Registers, n: u8) -> bool
    ensures { result ≡ counts r.now n }
{
    let number = u32::from(n);
    n >= 2
        && word::has(r.exceptions.pending, number)
        && (n < 16 || word::has(r.exceptions.armed, number))
}

// The better of the best so far and exception n, which has the higher number.
fn better_of(r: &Registers, best: Option<u8>, n: u8) -> Option<u8>
    ensures { result ≡ better r.now best n }
{
    match best {
        None if counts_pending(r, n) => Some(n),
        Some(k) if counts_pending(r, n) && priority(r, n) < priority(r, k) => Some(n),
        _ => best,
    }
}

fn best_pending(r: &Registers) -> Option<u8>
    ensures { result ≡ best 48 r.now }
{
    let mut found = None;
    for n in 0..NUMBERS {
        found = better_of(r, found, n);
    }
    found
}

// The exception that a step takes up. Nothing is looked through while nothing is pending.
pub fn chosen(r: &Registers) -> Option<u8>
    ensures { result ≡ chosen_of r.now }
{
    if r.exceptions.pending == 0 {
        return None;
    }
    // no `filter`: with its closure each step took three machine instructions more
    match best_pending(r) {
        Some(n) if priority(r, n) < execution_priority(r) => Some(n),
        _ => None,
    }
}

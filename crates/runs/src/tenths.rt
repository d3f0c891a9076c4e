// Panel words as temperatures: signed hundredths of a degree, read as tenths.
ghost use Rattle.std.specs.Prelude.{◌≡◌, pos, ◌≤ℤ◌, if◌then◌else◌, Ok, Err, nat_lt, slice_index};
ghost use Rattle.bus.specs.declared.refusal.Refusal.TheVariants.{OutOfRange};
ghost use Rattle.runs.specs.Tenths.{hundredths as hundredths_of, rounded, Rounded, summed, sum_of_first};

use bus::Refusal;
use parts::Panel;

// The greatest whole number of tenths that is not above five hundredths more.
fn rounded_to_tenths(hundredths: i64) -> i64
    requires { hundredths ≤ℤ pos 2147483647 }
    ensures { result ≡ rounded hundredths }
{
    (hundredths + 5).div_euclid(10)
}

// A word as a temperature.
pub fn tenths_of(word: u32) -> i32
    ensures value { result ≡ rounded (hundredths_of word) }
    ensures bounds { Rounded (hundredths_of word) result }
{
    let hundredths = i64::from(word.cast_signed());
    rounded_to_tenths(hundredths) as i32
}

pub fn panel_tenths(panel: &Panel, index: u32) -> Result<i32, Refusal>
    ensures { result ≡ (if nat_lt index 16 then Ok (rounded (hundredths_of (slice_index panel.now.words index))) else Err OutOfRange) }
{
    let word = panel.word(index)?;
    Ok(tenths_of(word))
}

pub fn sum_of_tenths(panel: &Panel) -> i64
    ensures { result ≡ sum_of_first summed panel.now.words }
{
    let mut sum = 0;
    // a loop: the sum of an iterator would owe at each step that no sum so far leaves the range
    for word in panel.words() {
        sum += i64::from(tenths_of(*word));
    }
    sum
}

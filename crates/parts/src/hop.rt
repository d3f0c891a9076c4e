// The answer of a part below, as the part above hands it up.
ghost use Rattle.std.specs.Prelude.{◌≡◌};
ghost use Rattle.parts.specs.Hop.{handed_up_answer};

use bus::Fault;

pub fn hand_up(answer: Result<u32, Fault>) -> Result<u32, Fault>
    ensures { result ≡ handed_up_answer answer }
{
    answer.map_err(Fault::hand_up)
}

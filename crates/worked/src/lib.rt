// Worked examples of a step and of a region, proved together on the definitions.
#![tactic(auto)]

ghost use Rattle.worked.specs.Examples.{Examples};

pub fn examples_hold()
    ensures { Examples }
{}

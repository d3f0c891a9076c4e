// What a guarded program of accesses can see and change, for answers of any type.
ghost use Rattle.bus.specs.Isolation.{TwinsStand, ConfinedStands};

fn twins_stand<A>()
    ensures { TwinsStand A }
{}

fn confined_stands<A>()
    ensures { ConfinedStands A }
{}

// A theorem has no work to do: the contract is all.
pub fn programs_are_isolated<A>()
    ensures twins { TwinsStand A }
    ensures confined { ConfinedStands A }
{
    twins_stand::<A>();
    confined_stands::<A>();
}

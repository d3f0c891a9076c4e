// The theorems about steps and calls. Each function's contract is the theorem it is named for.
ghost use Rattle.arch.specs.Laws.{Soundness, SpecialsHidden, FramesUnprivileged, IsolationStands};

// Every call leaves a sound core sound; a fault and a refusal keep what they must.
pub fn calls_are_sound()
    ensures { Soundness }
{}

// Twins, confinement and balance, over every list of calls on a fresh machine over every world.
pub fn machines_are_isolated()
    ensures { IsolationStands }
{}

// Unprivileged code learns nothing of the stack pointers and the current exception from MRS.
pub fn special_registers_are_hidden()
    ensures { SpecialsHidden }
{}

// A return to unprivileged Thread mode reads no more than unprivileged code may.
pub fn frames_are_unprivileged()
    ensures { FramesUnprivileged }
{}

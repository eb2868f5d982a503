// What holds of the value of all instructions. The functions do nothing: each is a theorem. Steps are counted along the recursion by which
// the value is said, so no counter is kept as a program runs.
ghost use Rattle.npf_bpf.specs.ValueLaw.{StepsWithinLength, TellsValueBehind};

/// Behind other instructions the value is that of what stands there: so a fragment of a program can
/// be told by itself, and a distance that passes over instructions doesn't ask what they are.
pub fn value_behind_others()
    ensures { TellsValueBehind }
{}

/// A program takes at most as many steps as it has instructions, from any of them on.
pub fn takes_at_most_one_step_an_instruction()
    ensures { StepsWithinLength }
{}

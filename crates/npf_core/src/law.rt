// What a connection's flow goes by. Flows are `Copy`; that they may go to another thread is asked where a table is shared.
ghost use Rattle.std.specs.Prelude.{◌≡◌};

use npf_types::Way;

/// How a connection's flow goes on from packet to packet, and when it ends.
pub trait Law {
    ghost use Rattle.npf_core.specs.Meaning.{Meaning};

    /// The flow of a live connection.
    type State: Copy;
    /// What a packet brings to a step.
    type Arg: Copy;
    /// What a step answers.
    type Reply: Drop;

    /// The law that the functions compute.
    ghost meaning: { Meaning Self.State Self.Arg Self.Reply };

    /// The flow after a packet of that way, and the answer.
    fn step(state: &Self::State, way: Way, arg: &Self::Arg) -> (Self::State, Self::Reply)
        ensures next { result.0 ≡ meaning.next state.now way arg.now }
        ensures answer { result.1 ≡ meaning.answer state.now way arg.now };

    /// The same step in place: the flow goes on by a packet of that way, and the answer.
    fn advance(state: &mut Self::State, way: Way, arg: &Self::Arg) -> Self::Reply
        ensures next { state.new ≡ meaning.next state.old way arg.now }
        ensures answer { result ≡ meaning.answer state.old way arg.now }
    {
        let (next, reply) = Self::step(state, way, arg);
        *state = next;
        reply
    }

    /// Whether the flow has run out at that time.
    fn due(state: &Self::State, now: u64) -> bool
        ensures { result ≡ meaning.is_due state.now now };
}

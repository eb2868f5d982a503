// A run: packets through workers, in phases, beside a control task that publishes configurations and expires connections.
//
// In a phase each worker that has packets takes them in rising order on a thread of its own, at the same time as the control task does the
// phase's commands; each has a pass of its own to the table of connections, which is split from the caller's at the phase's start and
// joined at its end. Then what was killed is freed. A worker handles its packets where they stand, and with one worker and one phase no
// packet is ever moved.
//
// The contract of `play`: whatever the interleaving, the history that the caller's pass shows at the end explains each packet's
// outcome, within its phase and under a configuration of its phase (specs/Plays). It is proved from the contracts of the engine, of
// `Connections` and of the publisher alone.
#![tactic(auto)]

mod control;
mod crew;
mod gate;
mod numbers;
mod order;
mod phase;
mod played;
mod run;
mod shared;
mod spread;
mod threads;
mod worker;

pub use gate::{Gate, NoGate};
pub use npf_traffic::{Command, FragWhy, Packet, PacketBytes, Phase, Spread};
pub use played::Played;
pub use run::play;

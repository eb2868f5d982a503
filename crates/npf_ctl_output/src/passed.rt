// How far the capture of the packets that passed is given.
ghost use Rattle.std.specs.Prelude.{◌≡◌, All, length};
ghost use Rattle.npf_ctl_arrivals.specs.Within.{HasCaptureTime};
ghost use Rattle.npf_ctl_output.specs.Extents.{EndsInPacket};

use npf_engine::Outcome;
use npf_packet::IpExtent;
use npf_runner::Packet;

/// The capture of the packets that passed, as a run left them: its header, and then the records, each of a packet as it lies by its
/// extent from before the run.
#[derive(Drop)]
pub struct PassedPackets<'a> {
    pub(crate) extents: &'a [IpExtent],
    pub(crate) outputs: &'a [Packet<'a>],
    pub(crate) outcomes: &'a [Outcome],
    pub(crate) begun: bool,
    pub(crate) given: usize,
    ghost extended: { length extents.now ≡ length outputs.now },
    ghost told: { length outcomes.now ≡ length outputs.now },
    ghost ends: { All EndsInPacket extents.now },
    ghost timely: { All HasCaptureTime outputs.now },
}

// What holds of all bytes, be they a capture or not. The function does nothing: it is a theorem.
ghost use Rattle.npf_pcap.specs.CaptureLaw.{CaptureOrFault, CapturesHaveNoFault, OneCapture, OneFault};

/// Bytes are one capture at most, have one fault at most, aren't a capture with a fault, and are a capture or have a fault. So what
/// reads only captures and refuses only for faults, as `read_capture` and `read_extents` do, reads every capture and tells every
/// fault, unless memory runs out.
pub fn capture_law()
    ensures one { OneCapture }
    ensures fine { CapturesHaveNoFault }
    ensures fault { OneFault }
    ensures decided { CaptureOrFault }
{}

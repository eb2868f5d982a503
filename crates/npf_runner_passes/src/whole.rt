// Passes are joined again.
ghost use Rattle.std.specs.Prelude.{◌≡◌, [], All, map};
ghost use Rattle.npf_connections.specs.Stay.{IsOut};
ghost use Rattle.npf_runner_passes.specs.Whole.{Gathers};

use npf_connections::Connections;
use npf_core::Law;
use std::sync::Wait;

/// The pass takes in all of these, with their reader places. It takes no memory.
pub fn take_in<R: Wait, L: Law, C: Connections<L>>(
    rt: &R,
    conns: &C,
    pass: &mut C::Pass,
    others: Vec<C::Pass>,
)
    requires out { IsOut L.meaning (C.fits conns.now) C.view pass.old }
    requires others { All (IsOut L.meaning (C.fits conns.now) C.view) others.items }
    requires unjoined { All (λ other. (C.view other).joined ≡ []) others.items }
    ensures out { IsOut L.meaning (C.fits conns.now) C.view pass.new }
    ensures gathers { Gathers (C.view pass.old) (C.view pass.new) (map C.view others.items) }
{
    for other in others {
        conns.join(rt, pass, other);
    }
}

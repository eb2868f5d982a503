// A pass is split into one for each worker.
ghost use Rattle.std.specs.Prelude.{◌≡◌, ◌≤◌, ◌<◌, All, map, length, vec_len, vec_capacity, IfOk, OnErr};
ghost use Rattle.npf_connections.specs.Stay.{IsOut};
ghost use Rattle.npf_runner_passes.specs.Parts.{Spreads};

use npf_connections::Connections;
use npf_core::Law;
use npf_types::NoMemory;
use std::alloc::Global;
use std::sync::Wait;

/// So many new passes, each of which takes one of the pass's reader places; the pass keeps one at least. Where memory runs out the
/// pass is as it was.
pub fn split_off<R: Wait, L: Law, C: Connections<L>>(
    rt: &R,
    alloc: Global,
    conns: &C,
    pass: &mut C::Pass,
    count: u32,
) -> Result<Vec<C::Pass>, NoMemory>
    requires out { IsOut L.meaning (C.fits conns.now) C.view pass.old }
    requires places { count < (C.view pass.old).places }
    ensures out { IsOut L.meaning (C.fits conns.now) C.view pass.new }
    ensures count { IfOk result (λ given. vec_len given ≡ count) }
    ensures given { IfOk result (λ given. All (IsOut L.meaning (C.fits conns.now) C.view)
        given.items) }
    ensures spreads { IfOk result (λ given. Spreads (C.view pass.old) (C.view pass.new)
        (map C.view given.items)) }
    ensures same { OnErr result (C.view pass.new ≡ C.view pass.old) }
{
    let mut given = Vec::with_capacity(alloc, count as usize)?;
    for _ in 0..count {
        let other = conns.split(rt, pass);
        given.push_reserved(other);
    }
    Ok(given)
}

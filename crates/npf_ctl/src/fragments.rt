// A run whose fragments are put together.
ghost use Rattle.std.specs.Prelude.{◌≤◌, IfOk};
ghost use Rattle.npf_ctl_prepare.specs.Playable.{IsPlayable};
ghost use Rattle.npf_ctl_prepare.specs.View.{run_plan_of};
ghost use Rattle.npf_ctl.specs.Fragments.{HasWholePackets};

use npf_ctl_prepare::Prepared;
use npf_pieces::DatagramBytes;
use npf_reass_run::reassemble;
use npf_types::NoMemory;
use std::alloc::Global;
use std::sync::Wait;
use std::thread::Threads;

/// The run with its fragments put together by so many workers. Datagrams stand in the keeper, in place of what was there.
pub(crate) fn put_together<'a, R: Threads + Wait + Sync>(
    rt: &R,
    alloc: Global,
    prepared: Prepared<'a>,
    workers: u32,
    datagrams: &'a mut DatagramBytes,
) -> Result<Prepared<'a>, NoMemory>
    requires workers { (1 ≤ workers) × (workers ≤ 64) }
    requires playable { IsPlayable prepared }
    ensures whole { IfOk result (λ whole. HasWholePackets (run_plan_of prepared.entry) (run_plan_of whole)) }
    ensures playable { IfOk result IsPlayable }
{
    let Prepared {
        ifaces,
        configs,
        packets,
        phases,
    } = prepared;
    let packets = reassemble(rt, alloc, packets, workers, datagrams)?;
    Ok(Prepared {
        ifaces,
        configs,
        packets,
        phases,
    })
}

// Which worker a packet goes to.
ghost use Rattle.std.specs.Prelude.{◌≡◌, ◌≤◌, ◌<◌, ◌+◌, ◌^◌, All, IfOk, length, vec_len};
ghost use Rattle.std.specs.List.{AllZip};
ghost use Rattle.npf_key.specs.Port.{source_port, destination_port};
ghost use Rattle.npf_packet.specs.Decoder.{Decodes};
ghost use Rattle.npf_runner.specs.Spread.{flow_number, IsWorkerOf, worker_by_flow};
ghost use Rattle.npf_runner.specs.Job.{job_arrival, numbered_from};
ghost use Rattle.npf_runner.specs.Order.{IsWorkerAt};
ghost use Rattle.npf_runner.specs.Plays.{arriving};
ghost use Rattle.npf_traffic.specs.Packet.{IsShortPacket};

use npf_key::key_of;
use npf_packet::{Decoded, decode, one_decoding};
use npf_traffic::{Packet, Spread};
use npf_types::{Facts, IfId, Key, L4, NoMemory};
use std::alloc::Global;
use std::thread::{Threads, for_each_mut};

/// The packets of a phase of which one thread tells the workers, at least.
const SHARE: usize = 1_024;

/// The worker of each packet, counted from 0, where the packets are numbered from `first` on. As many threads as there are workers
/// tell them, each of its part of the packets.
pub fn workers_of<R: Threads + Sync>(
    rt: &R,
    alloc: Global,
    packets: &[Packet<'_>],
    first: u64,
    spread: Spread,
    workers: u32,
) -> Result<Vec<u8>, NoMemory>
    requires workers { (1 ≤ workers) × (workers ≤ 64) }
    requires first { (1 ≤ first) × (first + length packets.now < 2 ^ 64) }
    requires short { All IsShortPacket packets.now }
    ensures count { IfOk result (λ order. vec_len order ≡ length packets.now) }
    ensures fits { IfOk result (λ order. All (λ worker. worker < workers) order.items) }
    ensures each { IfOk result (λ order. AllZip
        (λ job worker. IsWorkerOf spread workers (job_arrival job) worker)
        (numbered_from first packets.now) order.items) }
{
    let mut order = vec![in alloc; 0; packets.len()]?;
    let threads = (packets.len() / SHARE + 1).min(workers as usize);
    for_each_mut(
        rt,
        order.as_mut_slice(),
        threads,
        &|place, worker: &mut u8|
            requires { (1 ≤ workers) × (workers ≤ 64) × (1 ≤ first) × (first + length packets.now < 2 ^ 64) × All IsShortPacket packets.now
                × (place < length packets.now) }
            ensures { IsWorkerAt spread workers first packets.entry.now place worker.new }
        { *worker = worker_of(first + place as u64, &packets[place], spread, workers) },
    );
    Ok(order)
}

fn worker_of(number: u64, packet: &Packet<'_>, spread: Spread, workers: u32) -> u8
    requires workers { (1 ≤ workers) × (workers ≤ 64) }
    requires number { 1 ≤ number }
    requires short { IsShortPacket packet.now }
    ensures fits { result < workers }
    ensures is { IsWorkerOf spread workers (arriving number packet.now) result }
{
    match (spread, packet.held) {
        (Spread::Rr, _) => ((number - 1) % u64::from(workers)) as u8,
        (Spread::Flow, Some(_)) => 0,
        (Spread::Flow, None) => worker_by_flow(packet, workers),
    }
}

fn worker_by_flow(packet: &Packet<'_>, workers: u32) -> u8
    requires workers { (1 ≤ workers) × (workers ≤ 64) }
    requires short { IsShortPacket packet.now }
    ensures fits { result < workers }
    ensures is { (decoded : _) → Decodes packet.now.link packet.now.bytes decoded → result ≡
        worker_by_flow workers decoded }
{
    one_decoding();
    match decode(packet.link, packet.bytes.as_slice()) {
        Decoded::Ip(facts) => (flow_number(&facts) % u64::from(workers)) as u8,
        Decoded::Skip | Decoded::Malformed { .. } => 0,
    }
}

/// A number that is the same with source and destination changed about.
fn flow_number(facts: &Facts) -> u64
    ensures { result ≡ flow_number facts.now }
{
    let Key([_, source_upper, source_lower, upper, lower]) = key_of(facts, IfId::EVERY);
    let (source, destination) = ports_of(&facts.l4);
    ((source_upper ^ source_lower) ^ (upper ^ lower))
        ^ ((u64::from(source) ^ u64::from(destination)) ^ u64::from(facts.proto))
}

/// The ports that a packet comes from and goes to, an echo's identifier twice, or 0.
fn ports_of(l4: &L4) -> (u16, u16)
    ensures source { result.0 ≡ source_port l4.now }
    ensures destination { result.1 ≡ destination_port l4.now }
{
    match *l4 {
        L4::Tcp { sport, dport, .. } | L4::Udp { sport, dport } => (sport, dport),
        L4::Icmp { echo, .. } | L4::Icmp6 { echo, .. } => (echo.unwrap_or(0), echo.unwrap_or(0)),
        L4::Other => (0, 0),
    }
}

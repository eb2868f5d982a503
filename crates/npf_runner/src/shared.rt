// What all workers share.
use npf_ruleset::Config;
use std::alloc::Global;

/// What all phases and all workers of a run share: the runtime, the allocator, the table, the gate and the configurations.
#[derive(Drop)]
pub struct Shared<'a, R, C, G> {
    pub rt: &'a R,
    pub alloc: Global,
    pub conns: &'a C,
    pub gate: &'a G,
    pub configs: &'a [Config],
}

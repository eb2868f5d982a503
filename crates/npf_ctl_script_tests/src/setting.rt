// What the rows before have left for those that follow.
use npf_engine::Outcome;
use npf_gen::Workload;
use std::alloc::Global;

#[derive(Drop)]
pub struct Setting {
    /// The outcomes that the next total counts.
    pub outcomes: Vec<Outcome>,
    /// The generated run that was asked for last.
    pub workload: Option<Workload>,
}

impl Setting {
    pub fn new(alloc: Global) -> Setting {
        Setting {
            outcomes: Vec::new(alloc),
            workload: None,
        }
    }
}

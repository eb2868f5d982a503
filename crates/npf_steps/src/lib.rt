// The steps that a question about all packets may take. Such a question is NP-hard in the number of dimensions, so each look that a search
// takes is counted here, and a search whose count passes what its caller allows ends without an answer: never with a wrong one.
//
// The contract: `take` refuses exactly where the steps taken would pass the most that may be, and then `is_spent` tells so of them
// (specs/Spent); what was taken never falls.
#![tactic(auto)]

mod steps;

pub use steps::{Steps, Stopped};

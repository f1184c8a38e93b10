// The public calls for C and Rust: words and lengths in, a number out. docs/BUFFERS.md has every row.
#![tactic(auto)]

mod done;
pub mod graph_calls;
pub mod layout_call;
pub mod prune_call;
pub mod step_call;
pub mod trace_call;

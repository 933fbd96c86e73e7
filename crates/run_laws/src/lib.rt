//! Laws of whole runs. Each call does nothing: its contract is the law.
#![tactic(auto)]

mod calm;
mod laws;

pub use calm::calm_run;
pub use laws::{
    complete, demo_is_never_refused, enough_nodes, eq_exactly, equal_circuits_overlap, one_end,
    one_run, run_on_texts, small_outputs, some_end,
};

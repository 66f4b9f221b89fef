//! The verdict on a module, and the runs of a valid one: the public calls of spv_check and spv_run in one place.
#![tactic(auto)]

pub mod laws;

pub use spv_check::{
    Checked, Flow, Judged, Judgment, Line, Parts, Reached, Types, Verdict, check, check_stream,
    flow, flow_check, judge, line_for, op_holds, read, type_check, types,
};
pub use spv_flow::meet;
pub use spv_flow::walks::laws::all_ready;
pub use spv_run as run;
pub use spv_run::{Code, Ending, Step, Trace, TraceError, is_entry, trace, trace_function};

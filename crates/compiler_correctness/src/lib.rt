//! The theorem of the compiler, over what its parts promise: the files that are linked from a well-typed program do what it means.
#![tactic(auto)]

mod laws;

pub use laws::{
    compiler_law, overlaid_program_law, overlay_files_law, plain_program_law, runtime_code_law,
    slice_law, tabled_run_law,
};

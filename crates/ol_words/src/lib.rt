//! The arguments of the command line of `ol`, and the job that they request.
//!
//! - `reading`: the job of a list of arguments
//! - `command`: the definition of the command line for clap
//! - `verbs`: the commands, with the settings and names of each, and what each asks for
//! - `settings`: the settings, with the option and the limits of each
//! - `lines`: the meaning of the arguments after the command
//! - `numbers`: the numbers of a command line
//! - `jobs`: jobs, and why there is none
//!
//! The contract of the toolchain's `clap` is trusted.
#![tactic(auto)]

mod command;
mod jobs;
mod lines;
mod numbers;
mod reading;
mod settings;
mod verbs;

pub use jobs::{Job, UsageFault, Word};
pub use numbers::Limits;
pub use reading::job;
pub use settings::Setting;
pub use verbs::Verb;

//! One module a command: what it reads, what it answers, and what it hands back.

pub mod certify;
pub mod check;
pub mod demand;
pub mod equal;
pub mod generate;
pub mod net;
pub mod run;
pub mod trace;
pub mod view;
pub mod walk;

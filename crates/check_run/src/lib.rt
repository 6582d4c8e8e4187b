//! The run: from the words of a command to the report.
//!
//! `run` reads the words, fetches or makes both texts and reads them, decides all checks, and puts out their lines.
//! `check_one` decides one check.
//!
//! What it promises is one definition, `IsRun` in `specs/Run`. `specs/Lib` says in which order the definitions
//! are read.
#![tactic(auto)]

mod asked;
mod command;
mod decide;
mod load;
mod status;
mod stop;
mod words;

pub use checks::{Method, Verdict};
pub use command::run;
pub use decide::check_one;
pub use settings::Settings;
pub use status::Status;

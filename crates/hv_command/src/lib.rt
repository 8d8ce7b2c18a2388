//! The whole product as one call.
//!
//! `run` (`top`) reads the job off the words (`job`), has the task, and the node file, log or plan,
//! read through `Lines`, which asks the source for up to 64 KiB at a time, and only where it holds
//! no whole line, and makes the answer (`reply`). The whole answer is in memory before its first
//! byte is written. Each job has a module: `proof_jobs`, `producing`, `replaying`, `sampling`,
//! `translating`, `bounding` and `planning`.
//!
//! In the definitions an answer is built from combinators: "the first fault of this text, or else
//! what is answered to the value that it denotes" is said once, for any text. Where no bytes are
//! known, the answer is said of jobs that read no file. The contract of the other jobs then says
//! what status may come and what was written.
//!
//! What `sas` and `bound` write is read back, and `run` says so (`IsAccepted`): a made task is of
//! use only where a proof is checked against its file. Of a text of more than 2^40 bytes it isn't
//! said, as of a replayed proof.
#![tactic(auto)]

mod bounding;
pub mod command_words;
mod feeding;
pub mod job;
mod job_fault;
pub mod laws;
mod planning;
mod producing;
mod proof_file;
mod proof_jobs;
mod replaying;
mod reply;
pub mod sample;
mod sampling;
pub mod status;
mod task_fault;
pub mod top;
mod translating;

pub use command_words::Words;
pub use job::{FileName, Job, Kind, read_job};
pub use laws::{accepted, one_answer};
pub use sample::sample_task;
pub use status::Status;
pub use top::run;

//! The parts of the program that need no card: it reads command lines, folders and files, evaluates code, verifies
//! packages, and reports the results.
#![tactic(auto)]

mod answer;
mod binding;
mod ending;
mod eval;
mod file_source;
mod files;
mod folders;
mod host_files;
mod job;
mod line;
mod saying;
mod shown;
mod streams;
mod texts;
mod verify_folders;

pub use answer::EvalAnswer;
pub use binding::binding_for;
pub use ending::{end_with, unwritten};
pub use file_source::{Faults, FileSource};
pub use files::{FileCause, FileFault, Files, ReadFault, Scripts, open_script};
pub use host_files::{HostFiles, HostScripts};
pub use job::{CardJob, RunJob, VerifyJob};
pub use saying::{Message, Reply, Said, Status, Stream, said_to, said_without_words};
pub use shown::ShownName;
pub use streams::{Patient, WholeLines};
pub use texts::TextFault;
pub use verify_folders::{RefusedFolder, older_stays, refused_folder, said_of_job};

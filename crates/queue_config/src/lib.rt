//! The settings: a TOML document, read into a [`Config`] or refused with the first thing that is wrong and its key. And what they
//! say of jobs: the class and the task of a name, the concurrency limit on a job, and what becomes of one that raised an error.
#![tactic(auto)]

mod class;
mod config;
mod error_list;
mod errors;
mod index;
mod limited;
mod read;
mod retry;
mod tables;
mod task;
mod whole;
mod worker;
mod wrong;

pub use config::{
    Class, Config, DispatcherKeys, ErrorKeys, JobsKeys, KeyFrom, Limit, ProcessKeys, Rule, RuleAct,
    Task, TaskArg, Worker,
};
pub use error_list::ErrorList;
pub use errors::kinds_are_ancestors;
pub use index::{HasName, Index};
pub use limited::KeyFault;
pub use retry::{Act, Decision};
pub use toml_members::{Key, SettingsFault};

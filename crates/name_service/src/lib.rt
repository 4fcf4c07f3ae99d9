//! The running service: a NameNode's core that threads share behind a lock, with passes and receipts, jobs that workers share, and a DataNode that
//! threads share (`data_service`).
#![tactic(auto)]

pub mod gate;
pub mod jobs;
pub mod laws;
pub mod pass;
pub mod server;
pub mod sharing;
pub mod workers;

pub use audit_check::check as check;
pub use data_service::{check as log_check, seat as seat, server as data_server};
pub use history::config as config;
pub use name_core::namenode as namenode;

//! Whether a history and the answers that callers kept of it agree, on which grant each record of an access log rests, and the text of a
//! history.
#![tactic(auto)]

pub mod check;
pub mod laws;

pub use audit_text::lines as lines;
pub use token_provenance::{logs, provenance, source};

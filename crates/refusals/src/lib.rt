//! Why the NameNode refuses what no missing right forbids: the refusals with their codes and texts.
#![tactic(auto)]

pub mod refusal;

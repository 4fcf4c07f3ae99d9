//! Block access tokens: HMAC-SHA1, the text of a token, the NameNode's key ring and a DataNode's key cache.
#![tactic(auto)]

pub mod cache;
mod code;
pub mod grant;
pub mod hmac;
pub mod key;
pub mod laws;
mod reading;
pub mod refusal;
pub mod ring;
pub mod token;

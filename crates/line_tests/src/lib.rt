//! Tests of lines: what request a line makes, how a line is ill-formed, and what is printed of an answer and of a token; of block tokens,
//! their text and codes, the keys of a ring and of a cache, and each refusal; and of decisions: users, what is demanded when, what denies a
//! request, and looks that are lent the tree.
#![tactic(auto)]

#[cfg(test)]
mod acl_lines;
#[cfg(test)]
mod answers;
#[cfg(test)]
mod decisions;
#[cfg(test)]
mod file_lines;
#[cfg(test)]
mod keys;
#[cfg(test)]
mod lines;
#[cfg(test)]
mod made;
#[cfg(test)]
mod requests;
#[cfg(test)]
mod tokens;

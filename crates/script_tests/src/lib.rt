//! Tests of what no file of a script can show: readers and writers that are interrupted, give or take some bytes at a time, or fail;
//! texts that are run behind one another; and a line that no command line can name; and of the check of a history against the answers that
//! callers kept. What is printed of scripts, as answers, histories, explanations and hints, is in the files of `example_runs`.
#![tactic(auto)]

#[cfg(test)]
mod alterations;
#[cfg(test)]
mod cores;
#[cfg(test)]
mod histories;
#[cfg(test)]
mod story;
#[cfg(test)]
mod streams;
#[cfg(test)]
mod texts;
#[cfg(test)]
mod verdicts;

use crate::workload::number;

/// What is shown of a workload.
#[derive(Clone, Copy)]
pub enum Shown {
    /// How many operations are done in a second.
    Rate,
    /// The lines of its script, of which none is run.
    Lines,
    /// What its lines are answered.
    Answers,
}

/// What a command line asks for.
#[derive(Clone, Copy)]
pub struct Asked<'a> {
    /// The name of a workload.
    pub name: &'a str,
    /// The size of the workload.
    pub size: u32,
    pub shown: Shown,
}

fn shown_by(word: &str) -> Option<Shown> {
    match word {
        "script" => Some(Shown::Lines),
        "answers" => Some(Shown::Answers),
        _ => None,
    }
}

fn sized<'a>(name: &'a str, size: &str, shown: Option<Shown>) -> Option<Asked<'a>> {
    let size = number(size)?;
    let shown = shown?;
    Some(Asked { name, size, shown })
}

/// What the words of a command line ask for, the program's name among them.
pub fn asked_by(words: &[String]) -> Option<Asked<'_>> {
    match words {
        [_, name, size] => sized(name.as_str(), size.as_str(), Some(Shown::Rate)),
        [_, name, size, shown] => sized(name.as_str(), size.as_str(), shown_by(shown.as_str())),
        _ => None,
    }
}

/// What a record of an access log rests on.
#[derive(Clone, Copy, Debug, PartialEq, Eq)]
pub enum Source {
    /// A token that was granted by the entry at this place.
    Grant(u64),
    /// None that was ever granted.
    Forged,
}

/// Whose receipt, or whose entry: the number of a pass, and the number of receipts before it in its pass.
#[derive(Clone, Copy, Debug, PartialEq, Eq)]
pub struct Pair {
    /// The pass.
    pub pass: u64,
    /// How many receipts came before it in its pass.
    pub index: u64,
}

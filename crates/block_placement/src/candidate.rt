ghost use Rattle.std.specs.Prelude.{◌≡◌, ◌<◌, ◌==◌, nat_lt};
ghost use Rattle.std.specs.List.{count_by};
ghost use Rattle.block_placement.specs.Placement.{comes_before, is_chosen};
ghost use Rattle.block_placement.specs.declared.candidate.Candidate.{Candidate};

use node_ids::node_id::NodeId;

/// A DataNode that may hold a block more, and how many blocks it has. Fewer blocks come first, and of as many the lower id.
#[derive(Clone, Copy, PartialEq, Eq, PartialOrd, Ord)]
pub struct Candidate {
    /// How many blocks it has.
    pub load: usize,
    pub node: NodeId,
}

impl Candidate {
    /// Whether this one is among those up to the last that is chosen; where there is no last, all are. Takes no memory.
    pub fn is_chosen(self, last: Option<Candidate>) -> bool
        ensures { result ≡ is_chosen last self }
    {
        match last {
            Some(last) => self <= last,
            None => true,
        }
    }
}

/// The last of so many candidates that come first; `None` where there are fewer. Costs a sort, and takes no memory.
pub fn last_chosen(mut candidates: Vec<Candidate>, count: usize) -> Option<Candidate>
    requires { 0 < count }
    ensures { (own : Candidate) → is_chosen result own ≡ nat_lt (count_by (λ other. comes_before other own) candidates.items) count }
{
    candidates.sort_unstable();
    candidates.get(count - 1).copied()
}

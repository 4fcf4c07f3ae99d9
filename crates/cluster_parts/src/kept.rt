ghost use Rattle.std.specs.Prelude.{◌≡◌, ◌+◌, ◌<◌, ℕ, List, ◌∷◌, length, reverse, vec_len, vec_capacity, IfSome};
ghost use Rattle.history.specs.declared.entry.HistoryEntry.{HistoryEntry};
ghost use Rattle.cluster_trace.specs.declared.event.Event.TheVariants as event;
ghost use Rattle.cluster_parts.specs.Kept.{AreWithin, IsOneMore};
ghost use Rattle.cluster_parts.specs.declared.kept.KeptEvents.TheVariants.{Asked};

use cluster_trace::data_call::DataCall;
use hdfs_types::op::Request;
use hdfs_values::moment::Moment;
use node_ids::node_id::NodeId;

/// Events as they are kept. Most ask the NameNode, one behind the other, and are kept together; what is long has memory of its own.
#[derive(Drop)]
pub enum KeptEvents {
    /// Some that asked the NameNode, with nothing between them: their requests are those of the entries of the history from the first of
    /// these indexes to the second, which keeps them.
    Asked(usize, usize),
    /// One that asked the NameNode for what only a message asks for.
    Refused(Box<Request>),
    /// One that delivered the message with this number.
    Delivered(u64, Moment),
    /// One that called a DataNode.
    Called(NodeId, Moment, DataCall),
}

impl KeptEvents {
    /// These with one more, which asked for the entry with this index, where they are what asked for the entries right before it.
    fn longer(&self, index: usize) -> Option<KeptEvents>
        ensures { IfSome result (λ longer. (first : ℕ) × (last : ℕ) × (self.now ≡ Asked first last) × (index ≡ last + 1) × (longer ≡ Asked first index)) }
    {
        match self {
            KeptEvents::Asked(first, last) if last.checked_add(1) == Some(index) => {
                Some(KeptEvents::Asked(*first, index))
            }
            _ => None,
        }
    }
}

/// Keeps behind these events one that asked the NameNode, whose entry came behind so many others. Takes no memory.
pub fn keep_asked(events: &mut Vec<KeptEvents>, entries: u64)
    requires room { vec_len events.old < vec_capacity events.old }
    ensures { (earlier : List HistoryEntry) (entry : HistoryEntry) → entries ≡ length earlier → AreWithin (reverse earlier) events.old.items
        → IsOneMore (reverse earlier) events.old.items (event.Name entry.request) (reverse (entry ∷ earlier)) events.new.items }
{
    let index = entries as usize;
    let Some(last) = events.pop() else {
        events.push_reserved(KeptEvents::Asked(index, index));
        return;
    };
    if let Some(longer) = last.longer(index) {
        events.push_reserved(longer);
        return;
    }
    events.push_reserved(last);
    events.push_reserved(KeptEvents::Asked(index, index));
}

ghost use Rattle.std.specs.Prelude.{◌≡◌, ◌+◌, ◌<◌, ◌≤◌, ◌^◌, ◌++◌, List, vec_len, vec_capacity};
ghost use Rattle.history.specs.declared.entry.HistoryEntry.{HistoryEntry};
ghost use Rattle.cluster_parts.specs.Noted.{answer_outcome, answer_messages, led_outcome, led_messages};
ghost use Rattle.cluster_parts.specs.Sent.{messages_of, AreLaid};

use crate::sent::{Sent, Source};
use cluster_trace::outcome::{ClusterRefusal, EventAnswer, Outcome};
use datanode::answered::Answered;
use hdfs_values::at_word::AtWord;
use plan_steps::answered::PlanAnswered;

/// What comes of an event that does nothing. Takes no memory.
pub fn note_nothing(sent: &Sent, refusal: ClusterRefusal) -> Outcome
    requires { sent.now.count ≤ 2 ^ 62 }
    ensures { result ≡ record { answer = EventAnswer.Lost refusal; first = sent.now.count + 1; count = 0 } }
{
    Outcome {
        answer: EventAnswer::Lost(AtWord::of(refusal)),
        first: sent.next(),
        count: 0,
    }
}

// What comes of a call of a DataNode that isn't there.
fn note_stranger(sent: &Sent) -> Outcome
    requires { sent.now.count ≤ 2 ^ 62 }
    ensures { result ≡ record { answer = EventAnswer.Lost ClusterRefusal.NoNode; first = sent.now.count + 1; count = 0 } }
{
    note_nothing(sent, ClusterRefusal::NoNode)
}

/// What comes of a call of a DataNode, whose messages are noted. Takes no memory.
pub fn note_answer(sent: &mut Sent, answered: Option<Answered>) -> Outcome
    requires room { vec_len sent.old.batches < vec_capacity sent.old.batches }
    requires small { sent.old.count ≤ 2 ^ 62 }
    ensures outcome { result ≡ answer_outcome sent.old.count answered }
    ensures messages { (history : List HistoryEntry) → messages_of history sent.new.batches.items ≡ messages_of history sent.old.batches.items ++ answer_messages answered }
    ensures laid { (history : List HistoryEntry) → AreLaid history 0 sent.old.batches.items sent.old.count → AreLaid history 0 sent.new.batches.items sent.new.count }
{
    let Some(answered) = answered else {
        return note_stranger(sent);
    };
    let count = answered.messages.len() as u64;
    Outcome {
        answer: EventAnswer::Called(answered.result),
        first: sent.add(Source::Own(answered.messages), count),
        count,
    }
}

/// What comes of a call about the recoveries that a DataNode leads, whose messages are noted. Takes no memory.
pub fn note_led(sent: &mut Sent, answered: Option<PlanAnswered>) -> Outcome
    requires room { vec_len sent.old.batches < vec_capacity sent.old.batches }
    requires small { sent.old.count ≤ 2 ^ 62 }
    ensures outcome { result ≡ led_outcome sent.old.count answered }
    ensures messages { (history : List HistoryEntry) → messages_of history sent.new.batches.items ≡ messages_of history sent.old.batches.items ++ led_messages answered }
    ensures laid { (history : List HistoryEntry) → AreLaid history 0 sent.old.batches.items sent.old.count → AreLaid history 0 sent.new.batches.items sent.new.count }
{
    let Some(answered) = answered else {
        return note_stranger(sent);
    };
    let count = answered.messages.len() as u64;
    Outcome {
        answer: EventAnswer::Led(answered.result),
        first: sent.add(Source::Own(answered.messages), count),
        count,
    }
}

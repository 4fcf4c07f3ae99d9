ghost use Rattle.std.specs.Prelude.{◌≡◌};
ghost use Rattle.std.specs.Bool.{Decides};

use crate::denials::is_same_denial;
use crate::replies::is_same_reply;
use crate::same_refusals::is_same_refusal;
use flat_rows::verdict::Verdict;

/// Whether two verdicts are one. Costs both. Takes no memory.
pub fn is_same_verdict(verdict: &Verdict, other: &Verdict) -> bool
    ensures { Decides result (verdict.now ≡ other.now) }
{
    match (verdict, other) {
        (Verdict::Done(reply), Verdict::Done(other)) => is_same_reply(reply, other),
        (Verdict::Denied(denial), Verdict::Denied(other)) => is_same_denial(denial, other),
        (Verdict::Refused(refusal), Verdict::Refused(other)) => is_same_refusal(refusal, other),
        _ => false,
    }
}

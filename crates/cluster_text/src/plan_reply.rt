ghost use Rattle.std.specs.Prelude.{◌≡◌, ◌++◌, OnOk, Err};
ghost use Rattle.std.specs.String.{string_bytes};
ghost use Rattle.plan_steps.specs.declared.answered.PlanReply.TheVariants as reply;
ghost use Rattle.cluster_text.specs.ReplyText as spec;

use block_recovery::decision::Decision;
use plan_steps::answered::PlanReply;
use recovery_updates::fault::PlanRefusal;
use script_text::blocks::print_nodes;
use script_text::numbers::{print_number, push_number};
use std::alloc::AllocError;

/// Adds the length that was decided, and the nodes that take part.
fn print_decision(decision: &Decision, line: &mut String) -> Result<(), AllocError>
    ensures { OnOk result (string_bytes line.new ≡ string_bytes line.old ++ spec.plan_reply_text (reply.Decided decision.now)) }
{
    line.push_str("ok length ")?;
    push_number(decision.length, line)?;
    line.push_str(" nodes ")?;
    print_nodes(&decision.nodes, line)
}

fn print_reply(reply: &PlanReply, line: &mut String) -> Result<(), AllocError>
    ensures { OnOk result (string_bytes line.new ≡ string_bytes line.old ++ spec.plan_reply_text reply.now) }
{
    match reply {
        PlanReply::Asked(count) => print_number("ok asked ", *count, line),
        PlanReply::Noted => line.push_str("ok noted"),
        PlanReply::Decided(decision) => print_decision(decision, line),
        PlanReply::Committed(length) => print_number("ok committed ", *length, line),
    }
}

fn print_refusal(refusal: PlanRefusal, line: &mut String) -> Result<(), AllocError>
    ensures { OnOk result (string_bytes line.new ≡ string_bytes line.old ++ spec.led_text (Err refusal)) }
{
    write!(line, "refused {refusal}")?;
    Ok(())
}

/// Adds what a DataNode answers that leads recoveries: its reply, or why it refuses.
///
/// # Errors
/// Out of memory.
pub fn print_led(
    answer: &Result<PlanReply, PlanRefusal>,
    line: &mut String,
) -> Result<(), AllocError>
    ensures { OnOk result (string_bytes line.new ≡ string_bytes line.old ++ spec.led_text answer.now) }
{
    match answer {
        Ok(reply) => print_reply(reply, line),
        Err(refusal) => print_refusal(*refusal, line),
    }
}

use crate::frame::first_frame;
use message::record_list::RecordList;
use message::round_trip::rewrite;
use plan::plan::Plan;

// The program totals by `Sum`, which shows one column.
const SHOWN_COLUMNS: u8 = 1;

// No frame is longer, so every message finds room here when it is written again.
const LONGEST_FRAME: usize = 65535;

// Reads a message, writes its records again, and says whether the bytes are the same. By the contract of `rewrite` they always
// are, and it never refuses here: the message was read, and no message is longer than the buffer. The program looks all the same.
fn show_rewritten(rt: &HostRuntime, number: usize, message: &[u8]) -> anyhow::Result<()> {
    let mut buffer = [0; LONGEST_FRAME];
    let Ok(length) = rewrite(message, &mut buffer) else {
        println!(rt; "message {number} is not written again")?;
        return Ok(());
    };
    let end = length.min(buffer.len());
    let verdict = if &buffer[0..end] == message {
        "the same bytes"
    } else {
        "other bytes"
    };
    println!(rt; "message {number} written again: {length} bytes, {verdict}")?;
    Ok(())
}

fn show_message(rt: &HostRuntime, number: usize, message: &[u8]) -> anyhow::Result<()> {
    match RecordList::read(message) {
        Ok(list) => {
            let records = list.records();
            println!(rt; "message {number} records {}", records.len())?;
            for record in records {
                println!(rt; "{record}")?;
            }
            show_rewritten(rt, number, message)
        }
        Err(fault) => {
            println!(rt; "message {number} {fault}")?;
            Ok(())
        }
    }
}

// Checks the plan for a measure that shows one column, the sum, and says how many nodes it has; answers whether it is a plan.
fn show_plan(rt: &HostRuntime, bytes: &[u8]) -> anyhow::Result<bool> {
    match Plan::check(bytes, SHOWN_COLUMNS) {
        Ok(plan) => {
            println!(rt; "plan of {} nodes", plan.len())?;
            Ok(true)
        }
        Err(fault) => {
            println!(rt; "{fault}")?;
            Ok(false)
        }
    }
}

// Shows message after message, to the end or to a frame that is not whole.
fn show_messages(rt: &HostRuntime, messages: &[u8]) -> anyhow::Result<()> {
    let mut left = messages;
    let mut number = 1;
    while let Some((message, behind)) = first_frame(left) {
        show_message(rt, number, message)?;
        left = behind;
        number += 1;
    }
    Ok(())
}

// Shows the plan and then the messages. A refused plan ends it, and so does, without a line, a plan's frame that is not whole.
pub fn show_input(rt: &HostRuntime, input: &[u8]) -> anyhow::Result<()> {
    let Some((plan, messages)) = first_frame(input) else {
        return Ok(());
    };
    if show_plan(rt, plan)? {
        show_messages(rt, messages)?;
    }
    Ok(())
}

// The form of each command, which is told where a line is not understood.
use std::io::{Result, Write};
use text::Page;
use typed::Verb;

// The form of a command.
fn form(verb: Verb) -> &'static str {
    match verb {
        Verb::Open => {
            "open NODES PROCESSES OBJECTS, as in open 3 3 2, and after them
  no home, or the home node of each process and then of each object"
        }
        Verb::Request => {
            "request PROCESS OBJECT MODE, as in request 0 1 exclusive
  (or request p0 o1 x; a mode is shared or s or 0, exclusive or x or 1)"
        }
        Verb::Release => "release PROCESS OBJECT, as in release 0 1 or release p0 o1",
        Verb::Deliver => "deliver MESSAGE, as in deliver 0",
        Verb::Drain => "drain, or drain BUDGET, as in drain 5 (at most 5 deliveries)",
        Verb::Follow => "follow, or follow BUDGET, as in follow 5 (at most 5 deliveries)",
        Verb::Show => "show, or show NODE, as in show 2",
        Verb::Messages => "messages, or messages NODE, as in messages 2",
        Verb::Waits => "waits, or waits NODE, as in waits 2",
        _ => "the command alone",
    }
}

pub fn expected(out: &mut Page, verb: Verb) -> Result<()> {
    writeln!(out, "  expected {}", form(verb))
}

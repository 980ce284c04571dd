// Reads a packed sheet, runs it, and prints each command's answer, the objects, the rings and the counts.
#![tactic(auto)]

use program::Source;

// What --help prints.
const HELP: &str = "board runs a packed sheet and prints what came of it.

  ./board FILE      runs the sheet in the file
  ./board < FILE    runs the sheet on standard input, as ./board - does
  ./board --help    prints this, as ./board -h does

It prints for each command its number and its answer: 0 is done, any other
answer is a refusal. Then for each object a line oK HOLDERS / LINE, so that
o0 0S 2S / 1X says: processes 0 and 2 hold object 0, shared, and 1 stands in
line, exclusive. Then each ring that was found, ring 0 1, and last
messages M rings R: how many messages are in flight, and how many rings were
found. For a sheet that is refused it prints sheet N, N being the answer.
docs/SHEET.md explains the form of a packed sheet, and the answers in words.
The exit status of ./board is 0, or 1 where something could not be read or
written, or an argument is wrong; that is told on standard error.
";

fn main(rt: HostRuntime) {
    let mut name = io::buffer();
    let Some(Source { mut from, named }) = program::start(&rt, HELP.as_bytes(), &mut name) else {
        return;
    };
    let mut sheet = io::large_buffer();
    let _ = match input::whole(&mut from, &mut sheet) {
        Ok(count) => report::show(&rt, &sheet, count),
        Err(broken) => Err(program::read_failed(&rt, named, broken.why)),
    };
}

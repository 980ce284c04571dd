// Runs the sheets of data/ command by command on two boards, one stepped by value and one in the room its owner lends, and prints under
// each name what `board` prints for that sheet.
#![tactic(auto)]

use listed::Way;

fn main(rt: HostRuntime) {
    listed::show(&rt, Way::BySteps);
}

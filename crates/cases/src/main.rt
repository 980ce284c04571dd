// Runs the sheets of data/ and prints under each name what `board` prints for that sheet.
#![tactic(auto)]

use listed::Way;

fn main(rt: HostRuntime) {
    listed::show(&rt, Way::AtOnce);
}

// The worked examples of document 01, run and compared: the list of standard input has a title before each line, and what came of it is
// printed beside the title.
#![tactic(auto)]

use std::io;

fn main(rt: HostRuntime) -> io::Result<()> {
    test_judge::list::judge_list(&rt, true)
}

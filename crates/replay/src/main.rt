// Replays a list of vectors from standard input: each line that is answered otherwise than it says is printed with what was got, and
// the last line counts them.
#![tactic(auto)]

use std::io;

fn main(rt: HostRuntime) -> io::Result<()> {
    test_judge::list::judge_list(&rt, false)
}

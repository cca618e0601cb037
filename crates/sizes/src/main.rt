// The listing program (program_sizes/src/lib.rt): the types of a file with their sizes, or their ranges between counts.
#![tactic(auto)]

use std::io;

fn main(rt: HostRuntime) -> io::Result<()> {
    program_sizes::list_file(&rt)
}

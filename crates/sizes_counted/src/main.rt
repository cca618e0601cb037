// The listing program once more, so that its run with counts is compared too: the arguments are in the file `args`, and
// what it must print was written by hand (as the first of `ranges`, case_explain/specs/Table.antt).
#![tactic(auto)]

use std::io;

fn main(rt: HostRuntime) -> io::Result<()> {
    program_sizes::list_file(&rt)
}

// Writes E's job file to standard output.
#![tactic(auto)]

use std::io;

fn main(rt: HostRuntime) -> io::Result<()> {
    rt.write_all(&sample_job::small_file())
}

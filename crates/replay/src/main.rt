// Takes one job along its way. It reads a job script on standard input; with none it runs the default job.
// `job` and `replay` are one program, so that the gate runs it on two inputs.
#![tactic(auto)]

use std::io;
use std::io::Read;

fn main(rt: HostRuntime) -> io::Result<()> {
    let mut input = Vec::new(rt.alloc());
    rt.stdin().read_to_end(&mut input)?;
    let shown = script::run::run(rt.alloc(), &input)?;
    rt.write_all(&shown)
}

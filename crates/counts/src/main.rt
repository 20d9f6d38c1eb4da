// Prints the target questions of reductions, part by part, for the inputs that measurements are made on.
#![tactic(auto)]

mod drawing;
mod draws;
mod grid;
mod measure;
mod measurement;
mod questions;
mod record_grid;
mod tally;
mod total;
mod workloads;

use workloads::run;

fn main(rt: HostRuntime) -> anyhow::Result<()> {
    run(&rt)
}

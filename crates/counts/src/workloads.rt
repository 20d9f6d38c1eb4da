ghost use Rattle.std.specs.Prelude.{◌<◌, ◌≤◌};

use super::grid::Grid;
use super::measure::measure;
use super::measurement::Measurement;
use super::total::Total;
use anyhow::anyhow;
use samples::{Arithmetic, Marking, Opening, Product, Rules, Sample, open};
use std::alloc::{AllocError, Global};

// Reduces a sample and prints its line.
fn report<T: Rules>(rt: &HostRuntime, name: &str, sample: &Sample<T>) -> anyhow::Result<()> {
    let measured = measure(sample);
    println!(rt; "{name}: {measured}")?;
    Ok(())
}

// The kinds of these ranks.
fn kinds_of(ranks: &[u8]) -> anyhow::Result<Opening> {
    open(ranks).map_err(|_| anyhow!("no kind list"))
}

// A random table of so many states over these kinds.
fn random_table(
    heap: Global,
    kinds: Opening,
    states: u16,
    seed: u32,
) -> Result<Sample<Grid>, AllocError>
    requires { (0 < states) × (states ≤ 1089) }
{
    let grid = Grid::drawn(heap, &kinds, states, seed)?;
    Ok(Sample::make(kinds, states, grid))
}

// Two random tables, of 32 and of 33 states, and records that both accept.
fn report_pair(rt: &HostRuntime, kinds: Opening) -> anyhow::Result<()> {
    let left = random_table(rt.alloc(), kinds, 32, 1)?;
    let right = random_table(rt.alloc(), kinds, 33, 2)?;
    let product = Product {
        left: &left,
        right: &right,
        marking: Marking::Both,
    };
    report(rt, "pair", &Sample::make(kinds, 1056, product))
}

// Rules by arithmetic over 1,089 states.
fn report_rule(
    rt: &HostRuntime,
    name: &str,
    kinds: Opening,
    rule: Arithmetic,
) -> anyhow::Result<()> {
    report(rt, name, &Sample::make(kinds, 1089, rule))
}

// Random tables, one for each seed.
fn report_tables(rt: &HostRuntime, kinds: Opening) -> anyhow::Result<()> {
    let mut total = Total::default();
    for seed in 1..1001u32 {
        total += measure(&random_table(rt.alloc(), kinds, 32, seed)?);
    }
    println!(rt; "random tables, seeds 1 to 1000: {total}")?;
    Ok(())
}

// A random table and the record of a seed: records that either accepts.
fn admit(heap: Global, kinds: Opening, seed: u32) -> Result<Measurement, AllocError> {
    let left = random_table(heap, kinds, 32, 1)?;
    let grid = Grid::of_record(heap, seed)?;
    let right = Sample::make(kinds, 32, grid);
    let product = Product {
        left: &left,
        right: &right,
        marking: Marking::Either,
    };
    Ok(measure(&Sample::make(kinds, 1024, product)))
}

// The record of seed 3 is the first that needs too many states.
fn report_admit(rt: &HostRuntime, kinds: Opening) -> anyhow::Result<()> {
    let measured = admit(rt.alloc(), kinds, 3)?;
    println!(rt; "admit: {measured}")?;
    Ok(())
}

// Admits of a record into a random table, one record for each seed; those that need too many states apart.
fn report_admits(rt: &HostRuntime, kinds: Opening) -> anyhow::Result<()> {
    let mut fitting = Total::default();
    let mut refused = Total::default();
    for seed in 1..1001u32 {
        let measured = admit(rt.alloc(), kinds, seed)?;
        if measured.states.is_ok() {
            fitting += measured;
        } else {
            refused += measured;
        }
    }
    println!(rt; "admits, seeds 1 to 1000, fitting: {fitting}")?;
    println!(rt; "admits, seeds 1 to 1000, refused: {refused}")?;
    Ok(())
}

// Prints a line for each input.
pub(super) fn run(rt: &HostRuntime) -> anyhow::Result<()> {
    let four = kinds_of(&[0, 0, 1, 2])?;
    let joins = kinds_of(&[0, 2, 2, 2, 2, 2, 2, 2, 2, 2, 2, 2, 2, 2, 2, 2])?;
    report(rt, "random table", &random_table(rt.alloc(), four, 32, 1)?)?;
    report_pair(rt, joins)?;
    report_admit(rt, four)?;
    report_rule(rt, "counting", joins, Arithmetic::Counting)?;
    report_rule(rt, "33 classes", joins, Arithmetic::Classes33)?;
    report_rule(rt, "all marks equal", joins, Arithmetic::Alike)?;
    report_rule(rt, "unary cycle", kinds_of(&[0, 1])?, Arithmetic::Cycle)?;
    report_rule(rt, "slow for rounds", kinds_of(&[0, 2])?, Arithmetic::Slow)?;
    report_tables(rt, four)?;
    report_admits(rt, four)
}

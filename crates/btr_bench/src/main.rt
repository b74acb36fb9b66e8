//! `btr_bench KERNEL SIZE TIMES` runs a kernel over and over, so that an outer clock can time it and another
//! program can check what it computes.
//!
//! A kernel over a piece: the piece has SIZE bytes, and in each of TIMES turns, from turn 0, the low bit of one byte is
//! flipped first, and then the kernel runs. The exclusive or of all results is printed in hexadecimal, with as many
//! digits as a result has. `Kernel` has these kernels, and one module more for each family of them; `Turns` in `specs/`
//! says what is computed.
//!
//! `tree-block`, `kept-block` and `sector` fetch a block of SIZE bytes from an image in memory and give it back, in each turn. How
//! many turns got it is printed in 16 hexadecimal digits.
//!
//! `scan` and `find-le` have the items of a tree of SIZE items, whose image is in memory: in each turn all of them in
//! order, or by SIZE lookups. How many the last turn had is printed in 16 hexadecimal digits.
#![tactic(auto)]

mod fetching;
mod image;
mod kernel;
mod node;
mod parity;
mod pattern;
mod plan;
mod sums;
mod task;
#[cfg(test)]
mod tests;
mod turns;
mod walking;

use anyhow::{Result, bail};
use plan::Plan;
use std::env;

fn main(rt: HostRuntime) -> Result<()> {
    let words: Vec<String> = env::args(&rt)?.collect(rt.alloc())?;
    let [_, task, size, times] = words.as_slice() else {
        bail!("usage: btr_bench KERNEL SIZE TIMES");
    };
    let plan = Plan::parse(task.as_str(), size.as_str(), times.as_str())?;
    let all = plan.run(rt.alloc())?;
    match plan.task.digits() {
        8 => println!(rt; "{all:08x}")?,
        _ => println!(rt; "{all:016x}")?,
    }
    Ok(())
}

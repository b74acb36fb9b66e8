ghost use Rattle.std.specs.Prelude.{IsTrue};
ghost use Rattle.btr_bench.specs.Task.{takes};

use crate::task::Task;
use crate::{fetching, turns, walking};
use anyhow::{Context, Result, bail, ensure};
use std::alloc::{AllocError, Global};

/// What is to be run: a task over `size` bytes or items, which it can take, in so many turns.
#[derive(Clone, Copy)]
pub struct Plan {
    pub task: Task,
    pub size: usize,
    pub times: u64,
    ghost takes: { IsTrue (takes task size) },
}

impl Plan {
    ghost use Rattle.std.specs.Prelude.{◌≡◌, IfOk, IsOk, Some};
    ghost use Rattle.btr_bench.specs.Task.{task_of, GivesTurns};
    ghost use Rattle.btr_bench.specs.Plan.{IfPlanned, number_of};

    /// Reads the name of a task and two decimal numbers, of which the first is a size that the task takes, in bytes or, of a
    /// walk, in items. The error names the first of the three that isn't that.
    pub fn parse(task: &str, size: &str, times: &str) -> Result<Plan>
        ensures task { IfOk result (λ plan. task_of task.now ≡ Some plan.task) }
        ensures size { IfOk result (λ plan. plan.size ≡ number_of size.now) }
        ensures times { IfOk result (λ plan. plan.times ≡ number_of times.now) }
        ensures succeeds { IfPlanned task.now size.now times.now (IsOk result) }
    {
        let Some(task) = Task::from_name(task) else {
            bail!("no kernel has this name");
        };
        let size = size.parse::<usize>().context("reading SIZE")?;
        ensure!(task.takes(size), "the kernel takes no such SIZE");
        let times = times.parse::<u64>().context("reading TIMES")?;
        Ok(Plan { task, size, times })
    }

    /// Runs the turns, and answers the number that they come to. `AllocError`: want of memory.
    pub fn run(self, alloc: Global) -> Result<u64, AllocError>
        ensures { IfOk result (GivesTurns self.task self.size self.times) }
    {
        match self.task {
            Task::Over(kernel) => turns::run(alloc, kernel, self.size, self.times),
            Task::Fetching(block) => fetching::run(alloc, block, self.size, self.times),
            Task::Walking(walk) => walking::run(alloc, walk, self.size as u64, self.times),
        }
    }
}

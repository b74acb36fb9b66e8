use crate::fetching::Block;
use crate::kernel::Kernel;
use crate::walking::Walk;

/// What can be timed.
#[derive(Clone, Copy, Debug, PartialEq, Eq)]
pub enum Task {
    /// A kernel over a piece of memory.
    Over(Kernel),
    /// The fetching of a block from the image of a device.
    Fetching(Block),
    /// The items of a tree.
    Walking(Walk),
}

impl Task {
    ghost use Rattle.std.specs.Prelude.{◌≡◌};
    ghost use Rattle.btr_bench.specs.Task.{task_of, takes, digits_of};

    /// The task of a name, if there is one.
    pub fn from_name(name: &str) -> Option<Task>
        ensures { result ≡ task_of name.now }
    {
        match name {
            "tree-block" => Some(Task::Fetching(Block::Tree)),
            "kept-block" => Some(Task::Fetching(Block::Kept)),
            "sector" => Some(Task::Fetching(Block::Sector)),
            "scan" => Some(Task::Walking(Walk::Scan)),
            "find-le" => Some(Task::Walking(Walk::FindLe)),
            _ => Kernel::from_name(name).map(|kernel| Task::Over(kernel)),
        }
    }

    /// Whether the piece or the block can have so many bytes, or the tree so many items.
    pub fn takes(self, size: usize) -> bool
        ensures { result ≡ takes self size }
    {
        match self {
            Task::Over(kernel) => kernel.takes(size),
            Task::Fetching(block) => block.takes(size),
            Task::Walking(_) => 1 <= size && size <= 1000000,
        }
    }

    /// How many hexadecimal digits are printed.
    pub fn digits(self) -> usize
        ensures { result ≡ digits_of self }
    {
        match self {
            Task::Over(kernel) => kernel.digits(),
            Task::Fetching(_) | Task::Walking(_) => 16,
        }
    }
}

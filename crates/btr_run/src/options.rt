// The options of `restore`, of which `send` takes the id of a subvolume alone.
ghost use Rattle.std.specs.Prelude.{◌≡◌};
ghost use Rattle.btr_run.specs.Restores.{id_alone, no_options, plan_by, send_by, with_dry, with_root, with_salvage, with_snapshots, with_verbose};

use btr_files::RestorePlan;
use btr_send::SendPlan;

// The subvolume that is restored where none is asked for.
const TOP_TREE: u64 = 5;

/// The options of `restore` that were read, each at most once.
#[derive(Clone, Copy, Debug, PartialEq, Eq)]
pub(crate) struct Options {
    /// `-r`: the id of a subvolume.
    pub(crate) root: Option<u64>,
    /// `-s`: snapshots too.
    pub(crate) snapshots: bool,
    /// `-v`: directories and files are named.
    pub(crate) verbose: bool,
    /// `-D`: nothing is written.
    pub(crate) dry: bool,
    /// `-i`: goes on after blocks that can't be had.
    pub(crate) salvage: bool,
}

impl Options {
    /// None.
    pub(crate) fn new() -> Options
        ensures { result ≡ no_options }
    {
        Options {
            root: None,
            snapshots: false,
            verbose: false,
            dry: false,
            salvage: false,
        }
    }

    /// All but an id: none of these may come any more.
    pub(crate) fn id_alone() -> Options
        ensures { result ≡ id_alone }
    {
        Options {
            root: None,
            snapshots: true,
            verbose: true,
            dry: true,
            salvage: true,
        }
    }

    /// With the id behind `-r`; `None` where it can't be that of a subvolume.
    pub(crate) fn with_root(self, id: u64) -> Option<Options>
        ensures { result ≡ with_root id self }
    {
        if id == TOP_TREE || (256..=18446744073709551360).contains(&id) {
            Some(Options {
                root: Some(id),
                ..self
            })
        } else {
            None
        }
    }

    /// With `-s`; `None` where it was given.
    pub(crate) fn with_snapshots(self) -> Option<Options>
        ensures { result ≡ with_snapshots self }
    {
        if self.snapshots {
            None
        } else {
            Some(Options {
                snapshots: true,
                ..self
            })
        }
    }

    /// With `-v`; `None` where it was given.
    pub(crate) fn with_verbose(self) -> Option<Options>
        ensures { result ≡ with_verbose self }
    {
        if self.verbose {
            None
        } else {
            Some(Options {
                verbose: true,
                ..self
            })
        }
    }

    /// With `-D`; `None` where it was given, or `-i`.
    pub(crate) fn with_dry(self) -> Option<Options>
        ensures { result ≡ with_dry self }
    {
        if self.dry || self.salvage {
            None
        } else {
            Some(Options { dry: true, ..self })
        }
    }

    /// With `-i`; `None` where it was given, or `-D`.
    pub(crate) fn with_salvage(self) -> Option<Options>
        ensures { result ≡ with_salvage self }
    {
        if self.dry || self.salvage {
            None
        } else {
            Some(Options {
                salvage: true,
                ..self
            })
        }
    }

    /// What they ask of a send.
    pub(crate) fn send_plan(&self) -> SendPlan
        ensures { result ≡ send_by self.now }
    {
        SendPlan {
            root: self.root.unwrap_or(TOP_TREE),
        }
    }

    /// What they ask of a restore.
    pub(crate) fn plan(&self) -> RestorePlan
        ensures { result ≡ plan_by self.now }
    {
        RestorePlan {
            root: self.root.unwrap_or(TOP_TREE),
            snapshots: self.snapshots,
            verbose: self.verbose,
            dry: self.dry,
        }
    }
}

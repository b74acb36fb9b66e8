//! Where rows are put.
ghost use Rattle.std.specs.Prelude.{List};
ghost use Rattle.btr_prog_example.specs.Rows.{Row, PutsRow, PutsEnd};

/// A row was refused.
#[derive(Clone, Copy, Debug, PartialEq, Eq)]
pub struct Refused;

/// A sink of rows.
pub trait Sink {
    ghost rows: { Self → List Row };

    /// PutsRow bytes. Where it refuses, a first part of them may be there.
    fn put(&mut self, bytes: &[u8]) -> Result<(), Refused>
        ensures { PutsRow (rows self.old) (rows self.new) bytes.now result };

    /// Ends a page.
    fn end(&mut self) -> Result<(), Refused>
        ensures { PutsEnd (rows self.old) (rows self.new) result };
}

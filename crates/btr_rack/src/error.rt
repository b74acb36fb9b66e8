/// Why a call of a `Rack` was refused. Each call says when which comes.
#[derive(Clone, Copy, Debug, PartialEq, Eq)]
pub enum RackError {
    Failed = 1,
    Memory = 2,
}

/// Why a call of a `TreeSink` or an `Out` was refused. Each call says when which comes.
#[derive(Clone, Copy, Debug, PartialEq, Eq)]
pub enum SinkError {
    Failed = 1,
    Memory = 2,
}

/// Why `MemRack::add` was refused: the name is there already, or want of memory.
#[derive(Clone, Copy, Debug, PartialEq, Eq)]
pub enum AddError {
    Name,
    Memory,
}

/// Why `MemRack::poke` was refused: the name isn't there, the range passes the end, or want of memory.
#[derive(Clone, Copy, Debug, PartialEq, Eq)]
pub enum PokeError {
    NoImage,
    Range,
    Memory,
}

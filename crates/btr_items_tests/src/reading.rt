// Any reader, and what it answers.
use btr_base::{Key, SumKind};
use btr_items::{
    BlockGroup, DevExtent, DevItem, Entry, ExtRef, ExtentItem, FileExtent, InlineRef, Inode,
    InodeRef, LooseRef, RootItem, RootRef, SumRun,
};

/// A reader, with what it is given beside a body.
#[derive(Clone, Copy, Debug)]
pub(crate) enum Reader {
    Inode,
    Name(usize),
    FarName(usize),
    Entry(usize),
    Index,
    FileExtent(u64),
    Root,
    RootName,
    Group,
    Range,
    Device,
    Extent(u8),
    Reference(usize),
    LooseReference(Key),
    Sums(SumKind, Key),
}

/// What a body says.
#[derive(Clone, Copy, Debug, PartialEq, Eq)]
pub(crate) enum Answer {
    Inode(Inode),
    Name(InodeRef),
    FarName(ExtRef),
    Entry(Entry),
    FileExtent(FileExtent),
    Root(RootItem),
    RootName(RootRef),
    Group(BlockGroup),
    Range(DevExtent),
    Device(DevItem),
    Extent(ExtentItem),
    Reference(InlineRef),
    LooseReference(LooseRef),
    Sums(SumRun),
}

// What stands in a body at a place.
fn read_at(reader: Reader, body: &[u8], at: usize) -> Option<Answer> {
    if at > body.len() {
        return None;
    }
    match reader {
        Reader::Name(_) => Some(Answer::Name(InodeRef::read(body, at).ok()?)),
        Reader::FarName(_) => Some(Answer::FarName(ExtRef::read(body, at).ok()?)),
        Reader::Entry(_) => Some(Answer::Entry(Entry::read(body, at).ok()?)),
        Reader::Reference(_) => Some(Answer::Reference(InlineRef::read(body, at).ok()?)),
        _ => None,
    }
}

// What a body says that stands in a tree of files, if its form is kept.
fn read_of_files(reader: Reader, body: &[u8]) -> Option<Answer> {
    match reader {
        Reader::Inode => Some(Answer::Inode(Inode::read(body).ok()?)),
        Reader::Index => Some(Answer::Entry(Entry::index(body).ok()?)),
        Reader::FileExtent(offset) => Some(Answer::FileExtent(FileExtent::read(
            offset, body,
        ).ok()?)),
        _ => None,
    }
}

// What a body says that stands in another tree, if its form is kept.
fn read_of_trees(reader: Reader, body: &[u8]) -> Option<Answer> {
    match reader {
        Reader::Root => Some(Answer::Root(RootItem::read(body).ok()?)),
        Reader::RootName => Some(Answer::RootName(RootRef::read(body).ok()?)),
        Reader::Group => Some(Answer::Group(BlockGroup::read(body).ok()?)),
        Reader::Range => Some(Answer::Range(DevExtent::read(body).ok()?)),
        Reader::Device => Some(Answer::Device(DevItem::read(body).ok()?)),
        Reader::Extent(kind) => Some(Answer::Extent(ExtentItem::read(kind, body).ok()?)),
        Reader::LooseReference(key) => {
            Some(Answer::LooseReference(LooseRef::read(key, body).ok()?))
        }
        Reader::Sums(sums, key) => Some(Answer::Sums(SumRun::read(sums, key, body).ok()?)),
        _ => None,
    }
}

/// What a body says, or `None` where its form is broken.
pub(crate) fn read(reader: Reader, body: &[u8]) -> Option<Answer> {
    match reader {
        Reader::Inode | Reader::Index | Reader::FileExtent(_) => read_of_files(reader, body),
        Reader::Name(at) | Reader::FarName(at) | Reader::Entry(at) | Reader::Reference(at) => {
            read_at(reader, body, at)
        }
        _ => read_of_trees(reader, body),
    }
}

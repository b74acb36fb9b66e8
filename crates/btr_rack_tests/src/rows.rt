// The sink and the output in memory, and the standard output.
use btr_rack::{MemOut, MemTree, Out, Part, Row, SinkError, StdOut, TreeSink};
use std::alloc::Global;
use std::test::Fail;

// What a row is, in letters.
fn kind_of(row: &Row) -> u8 {
    match row {
        Row::Start(_) => b's',
        Row::Dir(_) => b'd',
        Row::Up => b'u',
        Row::File(_, _) => b'f',
    }
}

// Whether a row is a file of this name with these bytes.
fn is_file(row: &Row, name: &str, bytes: &[u8]) -> bool {
    match row {
        Row::File(text, content) => text.as_str() == name && content.as_slice() == bytes,
        _ => false,
    }
}

fn has_bytes(part: &Part, bytes: &[u8]) -> bool {
    part.bytes.as_slice() == bytes
}

#[test]
fn a_file_is_put_together(rt: HostRuntime) -> Result<(), Fail> {
    let mut tree = MemTree::new(rt.alloc());
    tree.start("out")?;
    tree.file("f")?;
    tree.put(b"ab")?;
    tree.gap(3)?;
    tree.put(b"c")?;
    match tree.part() {
        Some(part) => assert!(rt; has_bytes(part, b"ab\0\0\0c")),
        None => panic!(rt; "the file is unfinished"),
    }
    tree.done()?;
    assert!(rt; tree.part().is_none());
    match tree.rows().get(1) {
        Some(row) => assert!(rt; is_file(row, "f", b"ab\0\0\0c")),
        None => panic!(rt; "the file is finished"),
    }
    Ok(())
}

// A folder with an empty file.
fn small_tree(alloc: Global) -> Result<MemTree, SinkError> {
    let mut tree = MemTree::new(alloc);
    tree.start("out")?;
    tree.dir("d")?;
    tree.file("empty")?;
    tree.done()?;
    tree.up()?;
    Ok(tree)
}

#[test]
fn steps_become_rows(rt: HostRuntime) -> Result<(), Fail> {
    let tree = small_tree(rt.alloc())?;
    let rows = tree.rows();
    assert_eq!(rt; rows.len(), 4);
    for (row, kind) in rows.iter().zip(*b"sdfu") {
        assert_eq!(rt; kind_of(row), kind);
    }
    Ok(())
}

#[test]
fn a_sink_fails_where_it_is_made_to(rt: HostRuntime) -> Result<(), Fail> {
    let mut tree = MemTree::new(rt.alloc());
    tree.fail_call(2)?;
    tree.fail_call(4)?;
    tree.start("out")?;
    assert_eq!(rt; tree.file("f"), Err(SinkError::Failed));
    assert!(rt; tree.part().is_none());
    tree.file("f")?;
    assert_eq!(rt; tree.put(b"abc"), Err(SinkError::Failed));
    Ok(())
}

#[test]
fn storing_what_waits_fails_where_it_is_made_to(rt: HostRuntime) -> Result<(), Fail> {
    let mut tree = MemTree::new(rt.alloc());
    tree.fail_call(2)?;
    tree.start("out")?;
    assert_eq!(rt; tree.flush(), Err(SinkError::Failed));
    assert_eq!(rt; tree.flush(), Ok(()));
    Ok(())
}

#[test]
fn text_is_put(rt: HostRuntime) -> Result<(), Fail> {
    let mut out = MemOut::new(rt.alloc());
    out.fail_call(2)?;
    for (text, answer) in [
        ("one\n", Ok(())),
        ("two\n", Err(SinkError::Failed)),
        ("three\n", Ok(())),
    ] {
        assert_eq!(rt; out.put(text.as_bytes()), answer, "{text}");
    }
    assert_eq!(rt; out.text(), b"one\nthree\n".as_slice());
    Ok(())
}

fn put_line<O: Out>(out: &mut O) -> Result<(), SinkError> {
    out.put(b"a line\n")
}

#[test]
fn the_standard_output_takes_text(rt: HostRuntime) {
    assert_eq!(rt; put_line(&mut StdOut::new(&rt)), Ok(()));
}

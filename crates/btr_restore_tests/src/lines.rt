// The lines of an entry that is left out and of the counts.
use btr_files::Counts;
use btr_listing::{Cause, Path};
use btr_rack::MemOut;
use btr_restore::{leave_out, tell_counts, tell_unverified};
use std::alloc::AllocError;
use std::test::Fail;

// What is there with ample memory, over an outside in which nothing fails.
fn must<T: Drop, E: Drop>(answer: Result<T, E>) -> Result<T, Fail> {
    match answer {
        Ok(value) => Ok(value),
        Err(_) => Err(Fail::from(AllocError)),
    }
}

#[test]
fn lines(rt: HostRuntime) -> Result<(), Fail> {
    let alloc = rt.alloc();
    let mut out = MemOut::new(alloc);
    let mut counts = Counts {
        dirs: 1,
        files: 0,
        skipped: 0,
    };
    let mut path = must(Path::new(alloc))?;
    must(path.push(b"sub"))?;
    must(tell_unverified(false, path.as_bytes(), &mut out))?;
    must(tell_unverified(true, path.as_bytes(), &mut out))?;
    path.cut(0);
    must(path.push(b"snap\n"))?;
    let _ = must(leave_out(Cause::Snapshot, path.as_bytes(), &mut counts, &mut out))?;
    let _ = must(tell_counts(&counts, &mut out))?;
    let text = b"unverified /sub\nskip snapshot /snap\\x0a\ndirectories 1 files 0 skipped 1\n";
    assert_eq!(rt; out.text(), text.as_slice());
    Ok(())
}

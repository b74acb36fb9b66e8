// Words that are no sentence: the number of the first that no sentence has at its place.
use crate::answers::answers;
use btr_rack::MemRack;
use btr_test_calls::CallFault;
use std::alloc::Global;
use std::process::Abort;

// The words before an option of `inspect-internal dump-tree`, and those before an address.
const INSPECT: &str = "inspect-internal";

const DUMP: &str = "dump-tree";

const RESOLVE: &str = "logical-resolve";

const DATA: &str = "--check-data-csum";

// Words, and the text that is put for them.
type Row = (&'static [&'static str], &'static [u8]);

const ANY: &[Row] = &[
    (&[], b"error: usage error at word 0\n"),
    (&["super"], b"error: usage error at word 1\n"),
    (&["super", "-x"], b"error: usage error at word 1\n"),
    (&["super", ""], b"error: usage error at word 1\n"),
    (&["super", "a", "-b"], b"error: usage error at word 2\n"),
    (&["frob", "a"], b"error: usage error at word 0\n"),
    (&["restore"], b"error: usage error at word 1\n"),
    (&["restore", "out"], b"error: usage error at word 2\n"),
    (
        &["restore", "-s", "-s", "out"],
        b"error: usage error at word 2\n",
    ),
    (
        &["restore", "-s", "-l", "a"],
        b"error: usage error at word 2\n",
    ),
    (
        &["restore", "-r", "7", "out", "a"],
        b"error: usage error at word 2\n",
    ),
    (
        &["restore", "-r", "5", "-r", "5"],
        b"error: usage error at word 3\n",
    ),
    (
        &["restore", "-l", "-v", "a"],
        b"error: usage error at word 2\n",
    ),
    (
        &["restore", "out", "-v", "a"],
        b"error: usage error at word 2\n",
    ),
];

const BEHIND_INSPECT: &[Row] = &[
    (&[INSPECT], b"error: usage error at word 1\n"),
    (&[INSPECT, "frob", "a"], b"error: usage error at word 1\n"),
    (&[INSPECT, DUMP], b"error: usage error at word 2\n"),
    (
        &[INSPECT, DUMP, "-x", "a"],
        b"error: usage error at word 2\n",
    ),
    (&[INSPECT, DUMP, "-b"], b"error: usage error at word 3\n"),
    (&[INSPECT, RESOLVE], b"error: usage error at word 2\n"),
    (&[INSPECT, RESOLVE, "a"], b"error: usage error at word 2\n"),
    (&[INSPECT, RESOLVE, "0"], b"error: usage error at word 3\n"),
    (
        &[INSPECT, RESOLVE, "0", "-b", "a"],
        b"error: usage error at word 3\n",
    ),
    (
        &[INSPECT, DUMP, "-b", "007", "a"],
        b"error: usage error at word 3\n",
    ),
    (
        &[INSPECT, DUMP, "-b", "18446744073709551616", "a"],
        b"error: usage error at word 3\n",
    ),
    (
        &[INSPECT, DUMP, "-t", "5"],
        b"error: usage error at word 4\n",
    ),
    (
        &[INSPECT, DUMP, "-t", "5", "-r", "a"],
        b"error: usage error at word 4\n",
    ),
    (
        &[INSPECT, DUMP, "-r", "-r", "a"],
        b"error: usage error at word 3\n",
    ),
    (&["restore"], b"error: usage error at word 1\n"),
    (&["restore", "out", "-l"], b"error: usage error at word 2\n"),
    (
        &["restore", "-l", "-l", "a"],
        b"error: usage error at word 2\n",
    ),
];

const BEHIND_CHECK: &[Row] = &[
    (&["check"], b"error: usage error at word 1\n"),
    (&["check", ""], b"error: usage error at word 1\n"),
    (&["check", "-r", "a"], b"error: usage error at word 1\n"),
    (&["check", DATA], b"error: usage error at word 2\n"),
    (
        &["check", DATA, DATA, "a"],
        b"error: usage error at word 2\n",
    ),
    (&["check", "a", DATA], b"error: usage error at word 2\n"),
    (
        &["check", "a", "b", "-x"],
        b"error: usage error at word 3\n",
    ),
];

const BEHIND_SCRUB: &[Row] = &[
    (&["scrub"], b"error: usage error at word 1\n"),
    (&["scrub", "a"], b"error: usage error at word 1\n"),
    (&["scrub", "start", "-x"], b"error: usage error at word 2\n"),
    (&["scrub", "start", "-r"], b"error: usage error at word 3\n"),
    (
        &["scrub", "start", "a", "-r"],
        b"error: usage error at word 3\n",
    ),
];

const BEHIND_SELF_TEST: &[Row] = &[
    (&["self-test"], b"error: usage error at word 1\n"),
    (&["self-test", "0"], b"error: usage error at word 1\n"),
    (&["self-test", "1001"], b"error: usage error at word 1\n"),
    (&["self-test", "01"], b"error: usage error at word 1\n"),
    (&["self-test", "a"], b"error: usage error at word 1\n"),
    (&["self-test", ""], b"error: usage error at word 1\n"),
    (&["self-test", "-1"], b"error: usage error at word 1\n"),
    (
        &["self-test", "18446744073709551617"],
        b"error: usage error at word 1\n",
    ),
    (&["self-test", "1", "a"], b"error: usage error at word 2\n"),
    (&["self-test", "1", "1"], b"error: usage error at word 2\n"),
    (&["self-test", "10", ""], b"error: usage error at word 2\n"),
];

fn refuses_all(rt: &impl Abort, alloc: Global, rows: &[Row]) -> Result<(), CallFault> {
    for (all, text) in rows {
        answers(rt, alloc, &mut MemRack::new(alloc), all, text, 2)?;
    }
    Ok(())
}

#[test]
fn words_that_are_no_sentence(rt: HostRuntime) -> Result<(), CallFault> {
    refuses_all(&rt, rt.alloc(), ANY)
}

#[test]
fn words_behind_inspect_internal(rt: HostRuntime) -> Result<(), CallFault> {
    refuses_all(&rt, rt.alloc(), BEHIND_INSPECT)
}

#[test]
fn words_behind_check(rt: HostRuntime) -> Result<(), CallFault> {
    refuses_all(&rt, rt.alloc(), BEHIND_CHECK)
}

#[test]
fn words_behind_self_test(rt: HostRuntime) -> Result<(), CallFault> {
    refuses_all(&rt, rt.alloc(), BEHIND_SELF_TEST)
}

#[test]
fn words_behind_scrub(rt: HostRuntime) -> Result<(), CallFault> {
    refuses_all(&rt, rt.alloc(), BEHIND_SCRUB)
}

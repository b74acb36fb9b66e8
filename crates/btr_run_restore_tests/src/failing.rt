// Restores, streams and owners where one call fails, of the destination, of an image or of the
// output: each in turn, up to the first that isn't made.
use btr_make::{RowVolume, row};
use btr_rack::MemRack;
use btr_run::Answer;
use btr_test_calls::{CallFault, Failing, Told, call, call_where, five_files};
use std::alloc::Global;
use std::process::Abort;

const COPY: [&str; 3] = ["restore", "out", "a"];

const PAST: [&str; 4] = ["restore", "-i", "out", "a"];

const SEND: [&str; 4] = ["send", "out", "v", "a"];

const RESOLVE: [&str; 4] = ["inspect-internal", "logical-resolve", "16777216", "a"];

// The first and the last of some calls of the destination, and behind one of them that fails, what
// stands there and whether a file is unfinished. There are 17: the folder; the name and the end of
// each file; and the bytes of `i`, `h1` and `h2`, the first sector of `a`, its zeros and its last
// sector.
const STANDING: &[(u64, u64, &[u8], bool)] = &[
    (1, 1, b"", false),
    (2, 2, b"out\n", false),
    (3, 3, b"out\n", true),
    (4, 4, b"out\ne \n", false),
    (5, 6, b"out\ne \n", true),
    (7, 7, b"out\ne \ni x\n", false),
    (8, 9, b"out\ne \ni x\n", true),
    (10, 10, b"out\ne \ni x\nh1 hello\n", false),
    (11, 12, b"out\ne \ni x\nh1 hello\n", true),
    (13, 13, b"out\ne \ni x\nh1 hello\nh2 hello\n", false),
    (14, 17, b"out\ne \ni x\nh1 hello\nh2 hello\n", true),
];

fn with_destination(alloc: Global, words: &[&str], number: u64) -> Result<Told, CallFault> {
    let mut rack = row(alloc, RowVolume::V1)?;
    call_where(alloc, &mut rack, words, Failing::Destination(number))
}

fn ends_at(rt: &impl Abort, told: &Told, rows: &[u8], has_part: bool) {
    assert_eq!(rt; told.answer, Answer::SinkFault);
    assert_eq!(rt; told.code, 4);
    assert_eq!(rt;
        told.text.as_slice(),
        b"error: the destination failed\n".as_slice()
    );
    assert_eq!(rt; told.rows.as_slice(), rows);
    assert_eq!(rt; told.has_part, has_part);
}

// Where a call of the destination fails, what the calls before it made stands there.
fn ends_at_each(rt: &impl Abort, alloc: Global, words: &[&str]) -> Result<(), CallFault> {
    for (from, to, rows, has_part) in STANDING {
        for number in *from..=*to {
            let told = with_destination(alloc, words, number)?;
            ends_at(rt, &told, rows, *has_part);
        }
    }
    let told = with_destination(alloc, words, 18)?;
    assert_eq!(rt; told.answer, Answer::Done { skipped: 0 });
    assert!(rt; told.rows.as_slice() == five_files(alloc)?.as_slice());
    Ok(())
}

#[test]
fn each_call_of_the_destination(rt: HostRuntime) -> Result<(), CallFault> {
    ends_at_each(&rt, rt.alloc(), &COPY)?;
    ends_at_each(&rt, rt.alloc(), &PAST)
}

// How many calls of the destination a stream makes: the folder and the file; the header, the
// subvolume, the commands of five files, which are 2, 3, 3, 3 and 4, and the end; and that the file
// is done.
const STREAMED: u64 = 21;

#[test]
fn each_call_of_the_destination_of_a_stream(rt: HostRuntime) -> Result<(), CallFault> {
    let alloc = rt.alloc();
    for number in 1..=STREAMED {
        let rows: &[u8] = if number == 1 { b"" } else { b"out\n" };
        ends_at(
            &rt,
            &with_destination(alloc, &SEND, number)?,
            rows,
            number > 2,
        );
    }
    let told = with_destination(alloc, &SEND, 22)?;
    assert_eq!(rt; told.answer, Answer::Done { skipped: 0 });
    assert!(rt; !told.has_part);
    Ok(())
}

// The numbers of some calls on an image, and what a command comes to where one of them fails; its
// exit status is 4.
struct End {
    from: u64,
    to: u64,
    text: &'static [u8],
    rows: &'static [u8],
    has_part: bool,
}

// The opening and the superblock; then the chunk tree's block, of which there is one copy.
const OPENING: End = End {
    from: 1,
    to: 2,
    text: b"error: image 0 failed\n",
    rows: b"",
    has_part: false,
};

const CHUNKS: End = End {
    from: 3,
    to: 3,
    text: b"error: unread block 1048576 on image 0\n",
    rows: b"",
    has_part: false,
};

const FOUR: &[u8] = b"out\ne \ni x\nh1 hello\nh2 hello\n";

const FIRST: &[u8] = b"error: unread block 16777216 on image 0\n";

const SECOND: &[u8] = b"error: unread block 16781312 on image 0\n";

// Of all other blocks there are two copies: two reads of the root tree's, to compare them, and one
// of its, one of the files' and one of the checksums'. So the sectors are read by the ninth call
// and the tenth, and by two more where a file is read once before it is begun.
const COPY_ENDS: &[End] = &[
    OPENING,
    CHUNKS,
    End {
        from: 9,
        to: 9,
        text: FIRST,
        rows: FOUR,
        has_part: true,
    },
    End {
        from: 10,
        to: 10,
        text: SECOND,
        rows: FOUR,
        has_part: true,
    },
];

const PAST_ENDS: &[End] = &[
    OPENING,
    CHUNKS,
    End {
        from: 9,
        to: 9,
        text: FIRST,
        rows: FOUR,
        has_part: false,
    },
    End {
        from: 10,
        to: 10,
        text: SECOND,
        rows: FOUR,
        has_part: false,
    },
    End {
        from: 11,
        to: 11,
        text: FIRST,
        rows: FOUR,
        has_part: true,
    },
    End {
        from: 12,
        to: 12,
        text: SECOND,
        rows: FOUR,
        has_part: true,
    },
];

const SEND_ENDS: &[End] = &[
    OPENING,
    CHUNKS,
    End {
        from: 9,
        to: 9,
        text: FIRST,
        rows: b"out\n",
        has_part: true,
    },
    End {
        from: 10,
        to: 10,
        text: SECOND,
        rows: b"out\n",
        has_part: true,
    },
];

const TREE_ENDS: &[End] = &[OPENING, CHUNKS];

// More calls than any of these commands makes.
const CALLS: u64 = 16;

fn end_of(ends: &'static [End], number: u64) -> Option<&'static End> {
    for end in ends {
        if end.from <= number && number <= end.to {
            return Some(end);
        }
    }
    None
}

// A volume with two copies of its trees, of which a call on the image fails, or none.
fn failing(alloc: Global, number: u64) -> Result<MemRack, CallFault> {
    let mut rack = row(alloc, RowVolume::V1d)?;
    if number > 0 {
        rack.fail_call(number)?;
    }
    Ok(rack)
}

// Asserts what comes of a command where one call on the image fails: that of the table, or else
// what comes of it where none does.
fn ends_as(
    rt: &impl Abort,
    alloc: Global,
    words: &[&str],
    ends: &'static [End],
) -> Result<Told, CallFault> {
    let whole = call(alloc, &mut failing(alloc, 0)?, words)?;
    assert_eq!(rt; whole.code, 0);
    assert!(rt; !whole.has_part);
    for number in 1..=CALLS {
        let told = call(alloc, &mut failing(alloc, number)?, words)?;
        match end_of(ends, number) {
            Some(end) => is_end(rt, &told, end),
            None => is_whole(rt, &told, &whole),
        }
    }
    Ok(whole)
}

fn is_end(rt: &impl Abort, told: &Told, end: &End) {
    assert_eq!(rt; told.text.as_slice(), end.text);
    assert_eq!(rt; told.code, 4);
    assert_eq!(rt; told.rows.as_slice(), end.rows);
    assert_eq!(rt; told.has_part, end.has_part);
}

fn is_whole(rt: &impl Abort, told: &Told, whole: &Told) {
    assert!(rt; told.text.as_slice() == whole.text.as_slice());
    assert_eq!(rt; told.code, 0);
    assert!(rt; told.rows.as_slice() == whole.rows.as_slice());
    assert!(rt; !told.has_part);
}

#[test]
fn each_call_on_an_image_of_a_restore(rt: HostRuntime) -> Result<(), CallFault> {
    let alloc = rt.alloc();
    let whole = ends_as(&rt, alloc, &COPY, COPY_ENDS)?;
    assert!(rt; whole.rows.as_slice() == five_files(alloc)?.as_slice());
    Ok(())
}

#[test]
fn each_call_on_an_image_of_a_restore_past_damage(rt: HostRuntime) -> Result<(), CallFault> {
    let alloc = rt.alloc();
    let whole = ends_as(&rt, alloc, &PAST, PAST_ENDS)?;
    assert!(rt; whole.rows.as_slice() == five_files(alloc)?.as_slice());
    Ok(())
}

#[test]
fn each_call_on_an_image_of_a_stream(rt: HostRuntime) -> Result<(), CallFault> {
    let whole = ends_as(&rt, rt.alloc(), &SEND, SEND_ENDS)?;
    assert!(rt; whole.rows.starts_with(b"out\nv btrfs-stream"));
    Ok(())
}

#[test]
fn each_call_on_an_image_of_the_commands_that_show(rt: HostRuntime) -> Result<(), CallFault> {
    let whole = ends_as(&rt, rt.alloc(), &RESOLVE, TREE_ENDS)?;
    let owner = b"tree 5 inode 260 position 0 path /a\nowners 1\n".as_slice();
    assert_eq!(rt; whole.text.as_slice(), owner);
    ends_as(&rt, rt.alloc(), &["restore", "-l", "a"], TREE_ENDS)?;
    Ok(())
}

// A compressed file is left out, so that there are two lines, and two calls of the output.
const LINES: u64 = 2;

fn with_output(alloc: Global, words: &[&str], number: u64) -> Result<Told, CallFault> {
    let mut rack = row(alloc, RowVolume::V2)?;
    call_where(alloc, &mut rack, words, Failing::Output(number))
}

// Where the output refuses a call, a first part of the text stands there, and where it has all of
// it, the text.
fn refuses_each(
    rt: &impl Abort,
    alloc: Global,
    words: &[&str],
    text: &[u8],
) -> Result<(), CallFault> {
    for number in 1..=LINES {
        let told = with_output(alloc, words, number)?;
        assert_eq!(rt; told.answer, Answer::OutFault);
        assert!(rt; text.starts_with(&told.text));
        assert!(rt; told.text.len() < text.len());
    }
    let told = with_output(alloc, words, 3)?;
    assert_eq!(rt; told.answer, Answer::Done { skipped: 1 });
    assert_eq!(rt; told.text.as_slice(), text);
    Ok(())
}

#[test]
fn each_call_of_the_output(rt: HostRuntime) -> Result<(), CallFault> {
    let text = b"skip compressed /z\ndirectories 0 files 5 skipped 1\n";
    refuses_each(&rt, rt.alloc(), &COPY, text)?;
    refuses_each(&rt, rt.alloc(), &SEND, text)?;
    let text = b"skip compressed /z\ndirectories 0 files 5 skipped 1 broken 0\n";
    refuses_each(&rt, rt.alloc(), &PAST, text)
}

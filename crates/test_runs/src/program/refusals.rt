//! Runs of the program `pagetab` in which memory allocation fails. They fill the address space.
use super::{SELF_ENTRY, words_of};
use crate::prelude::*;
use crate::streams::{Sink, Source};
use pagetab_engine::engine::run;
use test_support::Hoard;

/// The last lines of an image, with a table in frame 0x2000, and commands. The first command takes memory only for the
/// text of its reply.
const INPUT: &str = "word 0x1000 0 0x2003\nfree 0x100000\nfree 0x101000\nfree 0x102000\n\
    free 0x103000\nshow 0x1000 0\ntranslate 0\npool\nmap 4KiB 0x1000 0x5000 0x3\naddr 0x1abc\n\
    unmap 4KiB 0x1000\ncleanup\nwalk 0\npool\n";

/// The replies, up to the frames that a clean up returned.
const REPLIES: &str = "0x2003\nnot mapped\npool 0x100000 0x101000 0x102000 0x103000\nok\n0x5abc\n\
    0x5000\nok\nnone\npool";

/// The end of the last reply.
const FREE_AT_END: &str = " 0x100000 0x101000 0x102000 0x103000\n";

/// A number of bytes for which all replies have room.
const REPLY_ROOM: usize = 512;

/// The number of places of the memory. A place is the index of a table in memory.
const PLACES: usize = 512;

/// The progress of a run: 0 before it reads, otherwise one more than its number of replies.
type Stage = u64;

/// The blocks that a run takes from the remaining memory, in order, each with the progress of the run, and whether only
/// a pair takes it, which has two memories, two pools, and lists for a call and its two replies. They are the numbers
/// and the tables of a memory, the frames and the marks of a pool, the marks of the test, the text of a reply, the list
/// of a call, the lists of its replies, a list of frames, and all growths of the texts and lists that follow. All other
/// blocks reuse memory that was freed.
static BLOCKS: [(Stage, usize, bool); 15] = [
    (0, 8 * PLACES, false),
    (0, 4096 * PLACES, false),
    (0, 8 * PLACES, false),
    (0, PLACES, false),
    (0, 8 * PLACES, true),
    (0, 4096 * PLACES, true),
    (0, 8 * PLACES, true),
    (0, PLACES, true),
    (1, PLACES, false),
    (1, 8, false),
    (2, size_of::<Call>(), true),
    (2, size_of::<Reply>(), true),
    (2, size_of::<Reply>(), true),
    (3, 32, false),
    (3, 2048, false),
];

/// With four levels, the image needs no more words, and a clean up returns the table in frame 0x2000.
const FOUR: (&str, &str) = ("", " 0x2000");

/// With five levels, there is one more table, which a clean up returns as well.
const FIVE: (&str, &str) = ("word 0x2000 0 0x6003\n", " 0x2000 0x6000");

/// The arguments of a mode, the root's word for itself if the image needs it, what depends on the number of levels, and
/// whether the mode is that of a pair.
type Mode = (
    &'static str,
    &'static str,
    (&'static str, &'static str),
    bool,
);

/// The modes. Pairs come first, while the memory is hardly used: later an allocator may give a larger block than was asked for, and keep
/// it for larger requests once it is freed.
static MODES: [Mode; 7] = [
    ("pair 512 510", SELF_ENTRY, FOUR, true),
    ("pair5 512 510", SELF_ENTRY, FIVE, true),
    ("direct 512", "", FOUR, false),
    ("offset 512 0xffff800000000000", "", FOUR, false),
    ("recursive 512 510", SELF_ENTRY, FOUR, false),
    ("direct5 512", "", FIVE, false),
    ("recursive5 512 510", SELF_ENTRY, FIVE, false),
];

/// The end of a run without memory.
const REFUSED: Ending = Ending::Stopped(Fault::OutOfMemory);

/// The end of a run with wrong arguments.
const USED_WRONGLY: Ending = Ending::Stopped(Fault::Usage);

/// Runs the program with room for these blocks, and returns how it ends and its progress. Asserts that it writes the
/// first of the replies, and all of them if it ends well.
fn attempt(
    rt: impl Test,
    arguments: &str,
    (input, replies): (&str, &str),
    room: &[usize],
) -> (Ending, Stage) {
    let words = words_of(rt, arguments);
    let written = unwrap(rt, Vec::with_capacity(rt.alloc(), REPLY_ROOM));
    let (mut source, mut sink) = (Source::new(input.as_bytes(), 0), Sink::new(written, 0));
    let hoard = unwrap(rt, Hoard::past(rt.alloc(), room));
    let ending = run(rt.alloc(), &words, &mut source, &mut sink);
    drop(hoard);
    let rest = unwrap_some(rt, replies.as_bytes().strip_prefix(sink.bytes.as_slice()));
    assert!(rt; ending != Ending::Done || rest.is_empty());
    match source.calls {
        0 => (ending, 0),
        _ => (ending, sink.calls.saturating_add(1)),
    }
}

/// Refuses each block in turn, with room only for those before it. With room for all of them, the program ends well.
fn refuse_each(rt: impl Test, (arguments, own, levels, is_pair): Mode) {
    let input = unwrap(rt, format!(in rt.alloc(); "{own}{}{INPUT}", levels.0));
    let replies = unwrap(
        rt,
        format!(in rt.alloc(); "{REPLIES}{}{FREE_AT_END}", levels.1),
    );
    let texts = (input.as_str(), replies.as_str());
    let mut room: Vec<usize> = Vec::new(rt.alloc());
    for (stage, size, of_pair) in &BLOCKS {
        if is_pair || !*of_pair {
            let stopped = attempt(rt, arguments, texts, &room);
            assert_equal_in(rt, (arguments, room.len()), stopped, (REFUSED, *stage));
            unwrap(rt, room.push(*size));
        }
    }
    let (ending, _) = attempt(rt, arguments, texts, &room);
    assert_equal_in(rt, arguments, ending, Ending::Done);
}

#[test]
fn the_program_stops_at_each_block_that_is_refused(rt: HostRuntime) {
    for mode in &MODES {
        refuse_each(rt, *mode);
    }
}

/// Arguments that are refused before memory is taken: numbers out of range, an offset that isn't canonical, and an
/// unknown mode.
static WRONG: [&str; 6] = [
    "",
    "direct 1",
    "direct 65537",
    "offset 8 0x800000000000",
    "recursive 8 512",
    "sparse 8",
];

#[test]
fn wrong_arguments_want_no_memory(rt: HostRuntime) {
    for arguments in &WRONG {
        let stopped = attempt(rt, arguments, ("", ""), &[]);
        assert_equal_in(rt, *arguments, stopped, (USED_WRONGLY, 0));
    }
}

#[test]
fn offsets_are_tested_once_the_memory_is_made(rt: HostRuntime) {
    let arguments = "offset 512 0x7ffffffff000";
    let stopped = attempt(rt, arguments, ("", ""), &[]);
    assert_equal(rt, stopped, (REFUSED, 0));
    let room = [8 * PLACES, 4096 * PLACES, 8 * PLACES, PLACES];
    let stopped = attempt(rt, arguments, ("", ""), &room);
    assert_equal(rt, stopped, (USED_WRONGLY, 0));
}

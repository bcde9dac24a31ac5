//! A test of memory allocations that fail.
use crate::prelude::*;
use crate::program::machines::{MIXED, core_file};
use crate::program::runs::{EACH, Ran, Sink, run_on};
use ptdump_engine::{Failure, NoProgress, Request, run};
use test_support::Hoard;

/// The greatest number of rooms that are tried.
const MOST_ROOMS: usize = 60;

/// Creates the request of each command.
fn requests(rt: impl Abort + Copy, alloc: Global) -> Vec<Request> {
    let mut requests = Vec::new(alloc);
    for word in EACH {
        let request = unwrap(rt, word.request(alloc));
        unwrap(rt, requests.push(request));
    }
    requests
}

/// Prepares a run of each command, with writers that need no memory.
fn runs_to_come(rt: impl Abort + Copy, alloc: Global) -> Vec<Ran> {
    let mut runs = Vec::new(alloc);
    for _ in EACH {
        let mut ran = Ran {
            output: Sink::wide(alloc),
            errors: Sink::wide(alloc),
            ended: Err(Failure::Output),
        };
        unwrap(rt, ran.output.bytes.reserve(0x1_0000));
        unwrap(rt, ran.errors.bytes.reserve(0x1_0000));
        unwrap(rt, runs.push(ran));
    }
    runs
}

/// Runs each command with room for one block of a size.
fn run_with_room(rt: impl Abort + Copy, alloc: Global, file: &[u8], room: usize) -> Vec<Ran> {
    let requests = requests(rt, alloc);
    let mut runs = runs_to_come(rt, alloc);
    let hoard = unwrap(rt, Hoard::past(alloc, &[room]));
    for (request, ran) in requests.into_iter().zip(&mut runs) {
        ran.ended = run(
            alloc,
            file,
            request,
            &mut ran.output,
            &mut ran.errors,
            &mut NoProgress,
        );
    }
    drop(hoard);
    runs
}

/// Runs each command with all memory.
fn whole_runs(rt: impl Abort + Copy, alloc: Global, file: &[u8]) -> Vec<Ran> {
    let mut runs = Vec::new(alloc);
    for word in EACH {
        unwrap(rt, runs.push(run_on(rt, alloc, file, word)));
    }
    runs
}

/// Checks what a run wrote, whole or until memory allocation failed, and returns true if it is whole.
fn is_whole(rt: impl Abort + Copy, number: usize, ran: &Ran, wanted: &Ran) -> bool {
    let (taken, whole) = (&ran.output.bytes, &wanted.output.bytes);
    if ran.status() == wanted.status() {
        assert_equal_in(rt, number, taken.as_slice(), whole.as_slice());
        return true;
    }
    assert_equal_in(rt, number, ran.status(), 4);
    assert_equal_in(rt, number, whole.starts_with(taken), true);
    false
}

/// Checks runs with room for one block of a size, and returns how many are whole.
fn count_whole(
    rt: impl Abort + Copy,
    alloc: Global,
    file: &[u8],
    room: usize,
    wanted: &[Ran],
) -> usize {
    let mut done = 0_usize;
    let runs = run_with_room(rt, alloc, file, room);
    for (number, (ran, wanted)) in runs.iter().zip(wanted).enumerate() {
        if is_whole(rt, number, ran, wanted) {
            done = done.saturating_add(1);
        }
    }
    done
}

#[test]
fn each_growth_may_be_refused(rt: HostRuntime) {
    let alloc = rt.alloc();
    let file = unwrap(rt, core_file(alloc, &MIXED));
    let wanted = whole_runs(rt, alloc, &file);
    let mut room = 0_usize;
    for _ in 0..MOST_ROOMS {
        let done = count_whole(rt, alloc, &file, room, &wanted);
        assert_equal_in(rt, done, room > 0 || done == 0, true);
        if done == EACH.len() {
            return;
        }
        room = room.saturating_add(1024).saturating_add(room / 16);
    }
    panic!(rt; "not all runs are whole with {room} bytes");
}

//! Frames that don't lie at the places of their numbers.
use super::call_lists::MAPPED;
use super::{By, Row, State, add_replies, calls_of, compare};
use crate::prelude::*;
use x86_64::ShiftMapping;

/// The first map, with the root's frame at place 0. The words are given with the addresses of their places.
static ROW: Row<'static> = Row {
    places: &[0, 1, 2, 3],
    free: &[0x10_1000, 0x10_2000, 0x10_3000],
    root: 0x10_0000,
    words: &[
        (0x0, 0, 0x10_1003),
        (0x1000, 0, 0x10_2003),
        (0x2000, 0, 0x10_3003),
        (0x3000, 1, 0x5003),
    ],
    ..MAPPED
};

/// Executes a row's calls with frame 0x100000 at place 0, and compares the results.
fn check_shifted(rt: impl Test, row: &Row<'_>) {
    let mut memory = unwrap(rt, PhysMemory::new(rt.alloc(), 4));
    let mut pool = pool_of(rt, 0x104, row.free);
    let (root, mapping) = (frame_at(row.root), ShiftMapping::new(0x100));
    let calls = calls_of(rt, row.calls);
    let (mut replies, mut wanted) = (Vec::new(rt.alloc()), Vec::new(rt.alloc()));
    add_replies(rt, row.calls, &mut wanted);
    assert!(rt; unwrap(rt, pool_fits(rt.alloc(), &memory, &mapping, root, &pool)));
    let ran = run_over(&mut memory, root, mapping, &mut pool, &calls, &mut replies);
    unwrap(rt, ran);
    assert_equal(rt, replies, wanted);
    let state = State {
        memory,
        pool,
        recorder: FlushRecorder::new(rt.alloc()),
    };
    compare(rt, &state, row, By::Identity, "shifted")
}

#[test]
fn frames_lie_from_a_first_one_on(rt: HostRuntime) {
    let (mapping, root) = (ShiftMapping::new(0x100), frame_at(0x10_0000));
    assert!(rt; !mapping.covers(frame_at(0xf_f000)) && mapping.covers(root));
    assert_equal(rt, mapping.frame_to_pointer(root).number(), 0);
    check_shifted(rt, &ROW)
}

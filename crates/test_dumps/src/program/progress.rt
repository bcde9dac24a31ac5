//! A test of the progress that is told.
use crate::prelude::*;
use crate::program::machines::{Machine, Table, core_file};
use crate::program::runs::{Word, run_on, text_of};
use test_support::Processor;

/// A machine, and the text on its tables in the report of a run, which tells as many as the progress does.
struct Row {
    machine: Machine,
    text: &'static str,
}

static ROWS: [Row; 3] = [
    // Five levels.
    Row {
        machine: Machine {
            processor: Processor {
                cr3: 0x1018,
                cr4: 0x1020,
            },
            tables: &[
                Table {
                    address: 0x1000,
                    words: &[(0, 0x3003), (511, 0x3007)],
                },
                Table {
                    address: 0x2000,
                    words: &[(0, 0x5007), (1, 0x8000_0083)],
                },
                Table {
                    address: 0x3000,
                    words: &[(0, 0x2007)],
                },
                Table {
                    address: 0x5000,
                    words: &[(1, 0x40_0081)],
                },
            ],
        },
        text: "tables 4, ",
    },
    // Four levels, with a root that names itself and a table that names the root.
    Row {
        machine: Machine {
            processor: Processor {
                cr3: 0x1018,
                cr4: 0x20,
            },
            tables: &[
                Table {
                    address: 0x1000,
                    words: &[(0, 0x2003), (1, 0x1003)],
                },
                Table {
                    address: 0x2000,
                    words: &[(0, 0x1003), (1, 0x1003)],
                },
            ],
        },
        text: "tables 2, ",
    },
    // The root isn't in the dump.
    Row {
        machine: Machine {
            processor: Processor {
                cr3: 0x4000,
                cr4: 0x20,
            },
            tables: &[Table {
                address: 0x1000,
                words: &[],
            }],
        },
        text: "tables 0, ",
    },
];

#[test]
fn each_table_is_told_once(rt: HostRuntime) {
    for row in &ROWS {
        let file = unwrap(rt, core_file(rt.alloc(), &row.machine));
        let ran = run_on(rt, rt.alloc(), &file, Word::Walk);
        let errors = text_of(rt, &ran.errors.bytes);
        assert_equal_in(rt, errors, errors.starts_with(row.text), true);
    }
}

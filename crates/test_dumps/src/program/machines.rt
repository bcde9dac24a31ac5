//! Machines with page tables, and core files of them.
use std::alloc::{AllocError, Global};
use test_support::{Memory, Processor, push_core_file, push_table};

/// A page table: the address of its frame, and its words that aren't 0.
#[derive(Clone, Copy, Debug)]
pub struct Table {
    pub address: u64,
    pub words: &'static [(usize, u64)],
}

/// A machine: the registers of its processor, and its tables.
#[derive(Clone, Copy, Debug)]
pub struct Machine {
    pub processor: Processor,
    pub tables: &'static [Table],
}

/// Tables of four levels with the root at 0x5000: pages of three sizes in both halves, with all kinds of rights, a table that
/// the dump lacks, two shared tables, `HUGE_PAGE` at level four and in a word without `PRESENT`.
pub static MIXED: Machine = Machine {
    processor: Processor {
        cr3: 0x5000,
        cr4: 0x20,
    },
    tables: &[
        Table {
            address: 0x2000,
            words: &[(0, 0x6007), (1, 0x4000_00e7), (2, 0x99003)],
        },
        Table {
            address: 0x3000,
            words: &[(0, 0x83), (511, 0x8000_0083)],
        },
        Table {
            address: 0x4000,
            words: &[(511, 0xc000_0087)],
        },
        Table {
            address: 0x5000,
            words: &[
                (0, 0x2027),
                (1, 0x2083),
                (255, 0x3001),
                (256, 0x3001),
                (300, 0x4007),
                (511, 0x8000_0000_0000_4007),
            ],
        },
        Table {
            address: 0x6000,
            words: &[
                (0, 0x7007),
                (1, 0x8000_0000_0060_0087),
                (2, 0x80),
                (3, 0xa0_1085),
            ],
        },
        Table {
            address: 0x7000,
            words: &[(0, 0x1001), (1, 0x2001), (2, 0x3005), (511, 0x9007)],
        },
    ],
};

/// Writes a core file of a machine, with a segment for each table.
pub fn core_file(alloc: Global, machine: &Machine) -> Result<Vec<u8>, AllocError> {
    let mut contents = Vec::new(alloc);
    for table in machine.tables {
        push_table(&mut contents, table.words)?;
    }
    let mut memory = Vec::new(alloc);
    for (table, bytes) in machine.tables.iter().zip(contents.chunks_exact(4096)) {
        memory.push(Memory {
            address: table.address,
            bytes,
        })?;
    }
    let mut file = Vec::new(alloc);
    push_core_file(&mut file, &[machine.processor], &memory)?;
    Ok(file)
}

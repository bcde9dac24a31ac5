//! Accesses: what a processor does with a read, a write or an instruction fetch at an address.
ghost use Rattle.std.specs.Prelude.{◌≡◌, ◌≤◌, ℕ, length, Some, None, IfSome, IfNone};
ghost use Rattle.x86_64_access.specs.Accesses as memory_unit;
ghost use Rattle.x86_64_c.specs.Accesses as accesses;
ghost use Rattle.x86_64_c.specs.Arguments as given;
ghost use Rattle.x86_64_c.specs.Status as statuses;
ghost use Rattle.x86_64_tables.specs.LentMemory.{numbered};

use crate::arguments::{Hierarchy, Located, address_of};
use crate::operation::{Operation, enter};
use crate::status;
use bitflags::Flags;
use x86_64::structures::paging::PageTable;
use x86_64::structures::paging::mapper::PageTableFrameMapping;
use x86_64::{LevelCount, PhysAddr, TableMemory, VirtAddrIn};
use x86_64_access::laws::{accesses_leave_only_marks, marks_keep_hierarchies};
use x86_64_access::{Access, AccessKind, Fault, access, access_and_mark};

/// A read.
pub const READ: u32 = 0;

/// A write.
pub const WRITE: u32 = 1;

/// A fetch of an instruction.
pub const FETCH: u32 = 2;

/// What a processor is set to, as far as it decides accesses.
#[derive(Drop)]
#[repr(C)]
pub struct Controls {
    /// CR0.WP: a supervisor can't write to pages without `WRITABLE`.
    pub write_protect: bool,
    /// EFER.NXE: `NO_EXECUTE` forbids fetches. Otherwise that bit is reserved.
    pub no_execute: bool,
    /// CR4.SMEP: a supervisor can't fetch instructions from users' pages.
    pub smep: bool,
    /// CR4.SMAP: a supervisor can't read or write users' pages, unless `ac` is set.
    pub smap: bool,
    /// EFLAGS.AC.
    pub ac: bool,
    /// MAXPHYADDR: the number of bits of physical addresses, from 32 to 52.
    pub physical_bits: u8,
    /// The processor has no pages of 1GiB, so that `HUGE_PAGE` is reserved at level three, too.
    pub no_1gib_pages: bool,
    /// `GLOBAL` is reserved at levels four and five, as on AMD's processors.
    pub global_reserved: bool,
}

/// An access.
#[derive(Drop)]
#[repr(C)]
pub struct AccessRequest {
    /// The virtual address.
    pub address: u64,
    /// `READ`, `WRITE` or `FETCH`.
    pub kind: u32,
    /// Whether it is made at privilege level 3. Otherwise it is a supervisor's.
    pub user: bool,
    /// Whether `ACCESSED` and `DIRTY` are set as the processor does, if the access arrives.
    pub mark: bool,
}

/// What comes of an access. What a status doesn't name is 0.
#[derive(Drop)]
#[repr(C)]
pub struct Outcome {
    /// With `OK` the physical address, with `NO_TABLE` that of the frame that has no table.
    pub address: u64,
    /// With `PAGE_FAULT` the error code.
    pub code: u64,
    /// With `PAGE_FAULT` the level of the last entry that was read.
    pub level: u64,
}

/// Does what a processor does with an access, whatever words the tables hold.
///
/// Writes what comes of it, and sets `ACCESSED` and `DIRTY` if this is asked for and the access arrives. A valid hierarchy stays valid,
/// and a pool that fits it still fits. Returns `OK`, `PAGE_FAULT`, `NO_TABLE` if the table in a frame on the way isn't in the array, or
/// what is wrong with an argument; then nothing changes.
#[unsafe(no_mangle)]
pub extern "C" fn x64_access(
    hierarchy: &Hierarchy,
    tables: &mut [PageTable],
    controls: &Controls,
    request: &AccessRequest,
    outcome: &mut Outcome,
) -> u32
    ensures bad { (status : ℕ) → accesses.wrong_access_call hierarchy.now (length tables.old) controls.now
        request.now
        ≡ Some status → (result ≡ status) × (tables.new ≡ tables.old) × (outcome.new ≡ outcome.old) }
    ensures told { accesses.wrong_access_call hierarchy.now (length tables.old) controls.now request.now
        ≡ None
        → accesses.WritesOutcome (accesses.access_outcome (given.hierarchy_in hierarchy.now tables.old)
        controls.now request.now) result outcome.new }
    ensures marks { accesses.wrong_access_call hierarchy.now (length tables.old) controls.now request.now
        ≡ None → numbered tables.new ≡ accesses.memory_accessed (given.hierarchy_in hierarchy.now tables.old)
        controls.now request.now }
    ensures keeps { accesses.StillFits (given.hierarchy_in hierarchy.now tables.old)
        (given.hierarchy_in hierarchy.now tables.new) }
{
    match enter(hierarchy, tables, &mut [], &Asked { controls, request }) {
        Ok(came) => tell(came, outcome),
        Err(status) => status,
    }
}

/// An access that is asked for.
#[derive(Clone, Copy)]
pub struct Asked<'a> {
    controls: &'a Controls,
    request: &'a AccessRequest,
}

impl<'a> Operation for Asked<'a> {
    ghost use Rattle.std.specs.Prelude.{◌≡◌};
    ghost use Rattle.x86_64_access.specs.Accesses as memory_unit;
    ghost use Rattle.x86_64_c.specs.Accesses.{StillFits, memory_accessed, access_outcome, wrong_access_request};

    type Out = Result<PhysAddr, Fault>;

    type Entry = u64;

    ghost wrong = { λ asked levels tables room. wrong_access_request levels asked.controls.now
        asked.request.now };

    ghost does = { λ asked h array after left came.
        (memory_unit.outcome_of came ≡ access_outcome h asked.controls.now asked.request.now)
        × (after.memory ≡ memory_accessed h asked.controls.now asked.request.now) × StillFits h after };

    fn execute<L: LevelCount, T: TableMemory, P: PageTableFrameMapping + Copy>(
        &self,
        memory: &mut T,
        located: Located<P>,
        _array: &mut [u64],
    ) -> Result<Result<PhysAddr, Fault>, u32> {
        let Some(access) = access_of(self.controls, self.request) else {
            return Err(status::BAD_ACCESS);
        };
        let address = address_of::<L>(self.request.address)?;
        Ok(access_at(
            memory,
            located,
            self.controls,
            address,
            access,
            self.request.mark,
        ))
    }
}

/// Returns the access of a request to a processor, if its kind and the number of physical bits are right.
pub fn access_of(controls: &Controls, request: &AccessRequest) -> Option<Access>
    ensures some { IfSome result (λ access. memory_unit.access_of access
        ≡ accesses.access_asked request.now) }
    ensures good { IfSome result (λ _. accesses.wrong_access controls.now request.now ≡ None) }
    ensures bad { IfNone result (accesses.wrong_access controls.now request.now
        ≡ Some statuses.bad_access) }
{
    if controls.physical_bits < 32 || 52 < controls.physical_bits {
        return None;
    }
    let kind = match request.kind {
        READ => AccessKind::Read,
        WRITE => AccessKind::Write,
        FETCH => AccessKind::Fetch,
        _ => return None,
    };
    Some(Access {
        kind,
        user: request.user,
    })
}

/// Does what a processor does with an access at an address, and marks the entries if this is asked for.
fn access_at<L: LevelCount, T: TableMemory, P: PageTableFrameMapping + Copy>(
    memory: &mut T,
    located: Located<P>,
    controls: &Controls,
    address: VirtAddrIn<L>,
    asked: Access,
    mark: bool,
) -> Result<PhysAddr, Fault>
    requires { controls.now.physical_bits ≤ 52 }
    ensures outcome { memory_unit.outcome_of result ≡ accesses.outcome_at
        (given.at P.places L.LEVELS located (T.tables memory.old)) controls.now address
        (memory_unit.access_of asked) }
    ensures marks { T.tables memory.new ≡ accesses.memory_at
        (given.at P.places L.LEVELS located (T.tables memory.old)) controls.now address
        (memory_unit.access_of asked) mark }
    ensures keeps { accesses.StillFits (given.at P.places L.LEVELS located (T.tables memory.old))
        (given.at P.places L.LEVELS located (T.tables memory.new)) }
    ensures lent { T.lent memory.new ≡ T.lent memory.old }
{
    accesses_leave_only_marks();
    marks_keep_hierarchies();
    let controls = controls_of(controls);
    if mark {
        access_and_mark(
            memory,
            &located.mapping,
            located.root,
            address,
            asked,
            &controls,
        )
    } else {
        access(
            memory,
            &located.mapping,
            located.root,
            address,
            asked,
            &controls,
        )
    }
}

/// Returns the controls of a processor.
pub fn controls_of(controls: &Controls) -> x86_64_access::Controls
    ensures { memory_unit.controls_of result ≡ accesses.given_controls controls.now }
{
    x86_64_access::Controls {
        write_protect: controls.write_protect,
        no_execute: controls.no_execute,
        smep: controls.smep,
        smap: controls.smap,
        ac: controls.ac,
        physical_bits: controls.physical_bits,
        no_1gib_pages: controls.no_1gib_pages,
        global_reserved: controls.global_reserved,
    }
}

/// Writes what came of an access, and returns the status.
pub fn tell(came: Result<PhysAddr, Fault>, outcome: &mut Outcome) -> u32
    ensures status { result ≡ accesses.outcome_status (memory_unit.outcome_of came) }
    ensures outcome { outcome.new ≡ accesses.outcome_written (memory_unit.outcome_of came) }
{
    match came {
        Ok(address) => {
            *outcome = Outcome {
                address: address.as_u64(),
                code: 0,
                level: 0,
            };
            status::OK
        }
        Err(fault) => tell_fault(fault, outcome),
    }
}

/// Writes why an access didn't arrive, and returns the status.
fn tell_fault(fault: Fault, outcome: &mut Outcome) -> u32
    ensures status { result ≡ accesses.outcome_status (memory_unit.fault_of fault) }
    ensures outcome { outcome.new ≡ accesses.outcome_written (memory_unit.fault_of fault) }
{
    match fault {
        Fault::PageFault { code, level } => {
            *outcome = Outcome {
                address: 0,
                code: code.bits(),
                level,
            };
            status::PAGE_FAULT
        }
        Fault::NoMemory { frame } => {
            *outcome = Outcome {
                address: frame.start_address().as_u64(),
                code: 0,
                level: 0,
            };
            status::NO_TABLE
        }
    }
}

//! A kernel with several processes, between whose address spaces two processors switch. It unmaps pages, flushes them all
//! at once later, and uses their frames for other things only then.
ghost use Rattle.std.specs.Prelude.{◌≡◌, ℕ, Some, None, IfOk, OnOk};
ghost use Rattle.uses.specs.Owned.{hierarchy};
ghost use Rattle.uses.specs.SpacesBeside.{OtherSpacesStay};
ghost use Rattle.uses.specs.SwitchingKernel.{ProcessorState, AreProcesses, BeginsWith, LoadsCr3, FlushesPcid, CachesChange, kernel_state, process_spaces, space_of, unmapped_frame, IsMappedOnce, IsOwnCall, FrameIsUnmapped, IsUnreached, LessIsMapped, KernelRuns, SwitchesTo, UnmappedIsUnreached};
ghost use Rattle.x86_64_model.specs.Lists.{In};
ghost use Rattle.x86_64.specs.Calls.{to_call, no_bits};
ghost use Rattle.x86_64.specs.Pairs.{pool_store};
ghost use Rattle.x86_64.specs.Runs.{Stepped};

use crate::processes::is_kernels;
use crate::run_in_space::call_on;
use bitflags::Flags;
use std::alloc::{AllocError, Global};
use x86_64::structures::paging::{Page, PageTableFlags, PhysFrame, Size4KiB};
use x86_64::{Call, FramePool, IdentityMapping, PageReply, Reply, SizeCall, TableMemory};

/// A process: the root of its address space, and its PCID (process-context identifier), with which processors tag what
/// they cache of it.
#[derive(Clone, Copy, Debug, PartialEq)]
pub struct Process {
    pub root: PhysFrame<Size4KiB>,
    pub pcid: u16,
}

/// A processor that caches what it finds in the tables, and switches between address spaces.
pub trait SwitchingProcessor {
    // what CR3 says, what was loaded, and what is cached
    ghost state: { Self → ProcessorState };

    /// Enables paging with a root and a PCID. Nothing is cached then.
    fn enable_paging(&mut self, root: PhysFrame<Size4KiB>, pcid: u16)
        ensures { BeginsWith root pcid (Self.state self.new) };

    /// Lets the processor drop and make items, which it may do at any moment. A processor does so by itself, so there is
    /// nothing to execute.
    fn cache<T: TableMemory>(&mut self, memory: &T)
        ensures { CachesChange (T.tables memory.now) (Self.state self.old) (Self.state self.new) };

    /// Returns the root that was loaded last with a PCID, or `None` if the kernel's table for this processor lacks it.
    fn loaded(&self, pcid: u16) -> Option<PhysFrame<Size4KiB>>
        ensures { result ≡ (Self.state self.now).loaded pcid };

    /// Loads CR3 with a root and a PCID, and keeps what is cached with this PCID or not (bit 63).
    fn load_cr3(&mut self, root: PhysFrame<Size4KiB>, pcid: u16, keeps: bool)
        ensures { LoadsCr3 root pcid keeps (Self.state self.old) (Self.state self.new) };

    /// Executes `INVPCID` for all that is cached with a PCID.
    fn flush_pcid(&mut self, pcid: u16)
        ensures { FlushesPcid pcid (Self.state self.old) (Self.state self.new) };
}

/// A processor that caches nothing, and remembers only what it loaded last.
pub struct NoCache {
    root: PhysFrame<Size4KiB>,
    pcid: u16,
}

impl SwitchingProcessor for NoCache {
    ghost use Rattle.std.specs.Prelude.{[]};
    ghost use Rattle.x86_64_model.specs.Switches.{holder_with};

    ghost state = { λ p. record {
      root = p.root;
      pcid = p.pcid;
      loaded = holder_with p.pcid (Some p.root) (λ c. None);
      cached = [];
    } };

    fn enable_paging(&mut self, root: PhysFrame<Size4KiB>, pcid: u16) {
        self.root = root;
        self.pcid = pcid;
    }

    fn cache<T: TableMemory>(&mut self, _memory: &T) {}

    fn loaded(&self, pcid: u16) -> Option<PhysFrame<Size4KiB>> {
        if pcid == self.pcid {
            Some(self.root)
        } else {
            None
        }
    }

    fn load_cr3(&mut self, root: PhysFrame<Size4KiB>, pcid: u16, _keeps: bool) {
        self.root = root;
        self.pcid = pcid;
    }

    fn flush_pcid(&mut self, _pcid: u16) {}
}

/// Switches a processor to a process. What it has cached of it is kept.
fn switch<C: SwitchingProcessor>(processor: &mut C, process: &Process)
    ensures { SwitchesTo process.now (C.state processor.old) (C.state processor.new) }
{
    let keeps = processor.loaded(process.pcid) == Some(process.root);
    processor.load_cr3(process.root, process.pcid, keeps);
}

/// Returns the page's frame, if this is the reply to an unmap of it that wasn't refused.
fn unmapped_frame(reply: &Reply) -> Option<PhysFrame<Size4KiB>>
    ensures { result ≡ unmapped_frame reply.now }
{
    match reply {
        Reply::Of4KiB(PageReply::Unmap(Ok((frame, _)))) => Some(*frame),
        _ => None,
    }
}

/// One of the two processors.
#[derive(Clone, Copy, Debug, PartialEq)]
pub enum Which {
    First,
    Second,
}

/// A kernel, its processes and its two processors.
pub struct Kernel<T, C> {
    pub processes: Vec<Process>,
    pub memory: T,
    pub pool: FramePool,
    /// The PCID of the process of which pages were unmapped since the last flush.
    pub late: Option<u16>,
    pub first: C,
    pub second: C,
}

impl<T: TableMemory, C: SwitchingProcessor> Kernel<T, C> {
    /// Starts both processors with a process.
    ///
    /// Requires that the processes have address spaces that share the upper half, as `spaces_fit` tests, that each root has
    /// one PCID, and that only pages of the upper half have `GLOBAL`.
    pub fn start(
        processes: Vec<Process>,
        memory: T,
        pool: FramePool,
        mut first: C,
        mut second: C,
        process: Process,
    ) -> Kernel<T, C>
        requires are { AreProcesses processes.items (T.tables memory) (pool_store pool) }
        requires process { In processes.items process }
        ensures runs { KernelRuns (kernel_state T.tables C.state result) }
        ensures same { (result.processes ≡ processes) × (result.memory ≡ memory) × (result.pool ≡ pool) }
    {
        first.enable_paging(process.root, process.pcid);
        second.enable_paging(process.root, process.pcid);
        Kernel {
            processes,
            memory,
            pool,
            late: None,
            first,
            second,
        }
    }

    /// Lets both processors cache.
    fn cache(&mut self)
        requires { KernelRuns (kernel_state T.tables C.state self.old) }
        ensures runs { KernelRuns (kernel_state T.tables C.state self.new) }
        ensures same { self.new ≡ record self.old { first = self.new.first; second = self.new.second } }
    {
        self.first.cache(&self.memory);
        self.second.cache(&self.memory);
    }

    /// Switches a processor to a process.
    pub fn switch_to(&mut self, which: Which, process: &Process)
        requires runs { KernelRuns (kernel_state T.tables C.state self.old) }
        requires process { In self.old.processes.items process.now }
        ensures runs { KernelRuns (kernel_state T.tables C.state self.new) }
        ensures same { self.new ≡ record self.old { first = self.new.first; second = self.new.second } }
    {
        self.cache();
        match which {
            Which::First => switch(&mut self.first, process),
            Which::Second => switch(&mut self.second, process),
        }
    }

    /// Flushes what was unmapped, on both processors. Afterwards no access on either goes to a frame that no process maps.
    pub fn flush_late(&mut self)
        requires { KernelRuns (kernel_state T.tables C.state self.old) }
        ensures runs { KernelRuns (kernel_state T.tables C.state self.new) }
        ensures flushed { self.new ≡ record self.old {
          late = None;
          first = self.new.first;
          second = self.new.second;
        } }
        ensures unreached { (frame : ℕ) → FrameIsUnmapped self.new.processes.items (T.tables self.new.memory)
            frame → IsUnreached (kernel_state T.tables C.state self.new) frame }
    {
        self.cache();
        self.flush();
        self.cache();
    }

    /// Executes the flush, if one is due.
    fn flush(&mut self)
        requires { KernelRuns (kernel_state T.tables C.state self.old) }
        ensures runs { KernelRuns (kernel_state T.tables C.state self.new) }
        ensures flushed { self.new ≡ record self.old {
          late = None;
          first = self.new.first;
          second = self.new.second;
        } }
    {
        let Some(pcid) = self.late else {
            return;
        };
        self.first.flush_pcid(pcid);
        self.second.flush_pcid(pcid);
        self.late = None;
    }

    /// Executes a call in a process's own half, whatever the processors have cached.
    fn call(&mut self, process: &Process, call: Call) -> Reply
        requires runs { KernelRuns (kernel_state T.tables C.state self.old) }
        requires process { In self.old.processes.items process.now }
        requires own { IsOwnCall self.old.late process.now (to_call 4 no_bits call) }
        ensures runs { KernelRuns (kernel_state T.tables C.state self.new) }
        ensures step { let h = hierarchy process.now.root in
            Stepped (h (T.tables self.old.memory)) (pool_store self.old.pool) (to_call 4 no_bits call) result
            (h (T.tables self.new.memory)) self.new.pool.frames }
        ensures others { OtherSpacesStay (process_spaces self.old.processes.items) (space_of process.now)
            (T.tables self.old.memory) (T.tables self.new.memory) }
        ensures same { (self.new.processes ≡ self.old.processes) × (self.new.late ≡ self.old.late) }
    {
        self.cache();
        call_on(
            &mut self.memory,
            IdentityMapping,
            process.root,
            &mut self.pool,
            call,
        )
    }

    /// Maps a page of a process's own half to a frame, and returns the reply. It is `NotAllowed` for another page, and for
    /// the flag `GLOBAL`.
    pub fn map_page(
        &mut self,
        process: &Process,
        page: Page<Size4KiB>,
        frame: PhysFrame<Size4KiB>,
        flags: PageTableFlags,
    ) -> Reply
        requires runs { KernelRuns (kernel_state T.tables C.state self.old) }
        requires process { In self.old.processes.items process.now }
        ensures runs { KernelRuns (kernel_state T.tables C.state self.new) }
        ensures same { (self.new.processes ≡ self.old.processes) × (self.new.late ≡ self.old.late) }
    {
        let _start = frame.start_address();
        if is_kernels(page) || flags.contains(PageTableFlags::GLOBAL) {
            return Reply::NotAllowed;
        }
        self.call(
            process,
            Call::Of4KiB(SizeCall::MapTo { page, frame, flags }),
        )
    }

    /// Unmaps a page of a process's own half, and returns its frame. Nothing is flushed yet, so that processors may still
    /// access the frame.
    pub fn unmap_page(
        &mut self,
        process: &Process,
        page: Page<Size4KiB>,
    ) -> Option<PhysFrame<Size4KiB>>
        requires runs { KernelRuns (kernel_state T.tables C.state self.old) }
        requires process { In self.old.processes.items process.now }
        ensures runs { KernelRuns (kernel_state T.tables C.state self.new) }
        ensures same { self.new.processes ≡ self.old.processes }
        ensures less { LessIsMapped self.old.processes.items
            (T.tables self.old.memory) (T.tables self.new.memory) }
        ensures unmapped { (frame : ℕ) → result ≡ Some frame
            → IsMappedOnce self.old.processes.items (T.tables self.old.memory) frame
            → FrameIsUnmapped self.old.processes.items (T.tables self.new.memory) frame }
    {
        if is_kernels(page) {
            return None;
        }
        self.make_late(process);
        let reply = self.call(process, Call::Of4KiB(SizeCall::Unmap { page }));
        unmapped_frame(&reply)
    }

    /// Makes this process the one of which pages are flushed late. If there is another one, its pages are flushed.
    fn make_late(&mut self, process: &Process)
        requires { KernelRuns (kernel_state T.tables C.state self.old) }
        ensures runs { KernelRuns (kernel_state T.tables C.state self.new) }
        ensures late { self.new ≡ record self.old {
          late = Some process.now.pcid;
          first = self.new.first;
          second = self.new.second;
        } }
    {
        if self.late == Some(process.pcid) {
            return;
        }
        self.flush_late();
        self.late = Some(process.pcid);
    }

    /// Unmaps pages of a process's own half, flushes them all at once, and returns their frames for other uses. No access
    /// on either processor goes to one that was mapped only once.
    ///
    /// # Errors
    ///
    /// `AllocError` if memory allocation fails for the frames. Then nothing is unmapped.
    pub fn reclaim(
        &mut self,
        alloc: Global,
        process: &Process,
        pages: &[Page<Size4KiB>],
    ) -> Result<Vec<PhysFrame<Size4KiB>>, AllocError>
        requires runs { KernelRuns (kernel_state T.tables C.state self.old) }
        requires process { In self.old.processes.items process.now }
        ensures runs { KernelRuns (kernel_state T.tables C.state self.new) }
        ensures unmapped { IfOk result (λ freed. (frame : ℕ) → In freed.items frame
            → IsMappedOnce self.old.processes.items (T.tables self.old.memory) frame
            → FrameIsUnmapped self.old.processes.items (T.tables self.new.memory) frame) }
        ensures flushed { OnOk result (self.new.late ≡ None) }
        ensures unreached { IfOk result (λ freed. (frame : ℕ) → In freed.items frame
            → IsMappedOnce self.old.processes.items (T.tables self.old.memory) frame
            → IsUnreached (kernel_state T.tables C.state self.new) frame) }
        ensures same { self.new.processes ≡ self.old.processes }
    {
        let mut freed = Vec::new(alloc);
        freed.reserve(pages.len())?;
        for page in pages {
            let Some(frame) = self.unmap_page(process, *page) else {
                continue;
            };
            freed.push_reserved(frame);
        }
        self.flush_late();
        Ok(freed)
    }

    /// Takes pages from a process that ran and sleeps, while both processors run others. Their frames may then be used for
    /// anything, though the first processor keeps what it cached of the process, and may go back to it at any time.
    ///
    /// # Errors
    ///
    /// `AllocError` if memory allocation fails for the frames. Then nothing is unmapped.
    pub fn take_from_sleeper(
        &mut self,
        alloc: Global,
        sleeper: &Process,
        worker: &Process,
        server: &Process,
        pages: &[Page<Size4KiB>],
    ) -> Result<Vec<PhysFrame<Size4KiB>>, AllocError>
        requires runs { KernelRuns (kernel_state T.tables C.state self.old) }
        requires sleeper { In self.old.processes.items sleeper.now }
        requires worker { In self.old.processes.items worker.now }
        requires server { In self.old.processes.items server.now }
        ensures runs { KernelRuns (kernel_state T.tables C.state self.new) }
        ensures unreached { IfOk result (λ freed. (frame : ℕ) → In freed.items frame
            → IsMappedOnce self.old.processes.items (T.tables self.old.memory) frame
            → IsUnreached (kernel_state T.tables C.state self.new) frame) }
    {
        self.switch_to(Which::First, sleeper);
        self.switch_to(Which::Second, worker);
        self.switch_to(Which::First, server);
        self.reclaim(alloc, sleeper, pages)
    }
}

/// While nothing is late, no access on either processor goes to a frame that no process maps, whatever the kernel and
/// the processors did before.
pub fn unmapped_frames_are_unreached()
    ensures { UnmappedIsUnreached }
{}

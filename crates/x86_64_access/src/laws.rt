//! Laws of accesses: how they agree with page walks.
ghost use Rattle.x86_64_access.specs.Corners.{GlobalIsReserved, HugeIsReserved, MissingEntriesFault, NoExecuteIsReserved, OthersAreReserved, ReservedBitsFault, SmapKeepsOut, SmepKeepsOut, SupervisorsWrite};
ghost use Rattle.x86_64_access.specs.MarkingProcessors.{FlushesAreEnoughWithMarks, MarksMayHappen};
ghost use Rattle.x86_64_access.specs.Marks.{AccessesLeaveMarks, AccessesStay, CachesStay, FitsStay, MarkedWalksStay};
ghost use Rattle.x86_64_access.specs.RightsTable.{CodesAreListed, RightsAreListed};
ghost use Rattle.x86_64_access.specs.SwitchingMarks.{MarksMaySwitch};
ghost use Rattle.x86_64_access.specs.Laws.{ArriveWhereWalksDo, WalksAllowedArrive};

/// An access that arrives does so at the address at which the page walk arrives.
#[tactic(auto, using(crate::proofs::Agreement::arrive_where_walks_do))]
pub fn accesses_arrive_where_walks_do()
    ensures { ArriveWhereWalksDo }
{}

/// If the page walk arrives, no reserved bit is set on its way, and the rights suffice, the access arrives there.
#[tactic(auto, using(crate::proofs::Agreement::walks_allowed_arrive))]
pub fn allowed_walks_arrive()
    ensures { WalksAllowedArrive }
{}

/// Marks (`ACCESSED` and `DIRTY` of present words) change no page walk.
#[tactic(auto, using(crate::proofs::Marks::walks_stay))]
pub fn marks_keep_walks()
    ensures { MarkedWalksStay }
{}

/// Marks (`ACCESSED` and `DIRTY` of present words) change the outcome of no access.
#[tactic(auto, using(crate::proofs::Marks::accesses_stay))]
pub fn marks_keep_accesses()
    ensures { AccessesStay }
{}

/// An access leaves only marks: `ACCESSED` and `DIRTY` of present words.
#[tactic(auto, using(crate::proofs::Marks::accesses_leave_marks))]
pub fn accesses_leave_only_marks()
    ensures { AccessesLeaveMarks }
{}

/// Marks (`ACCESSED` and `DIRTY` of present words) keep a hierarchy valid and each pool that fits it, and change its entries by
/// marks alone.
pub fn marks_keep_hierarchies()
    ensures { FitsStay }
{}

/// Marks (`ACCESSED` and `DIRTY` of present words) change nothing of what a processor may cache.
pub fn marks_keep_caches()
    ensures { CachesStay }
{}

/// What has to be flushed after each call is enough for a processor that sets `ACCESSED` and `DIRTY`, too, at every moment, also
/// during calls.
pub fn flushes_are_enough_with_marks()
    ensures { FlushesAreEnoughWithMarks }
{}

/// If all calls are done, any marks of present words may happen (`ACCESSED` and `DIRTY`), and then all calls are done.
pub fn marks_may_happen()
    ensures { MarksMayHappen }
{}

/// Marks of address spaces may happen while no call is under way, beside a processor that switches between them, and leave
/// these address spaces. The self-entries, and the roots' entries at the indices that roots share, have their marks before.
pub fn marks_of_address_spaces_may_happen()
    ensures { MarksMaySwitch }
{}

/// An access is allowed if and only if the table of rights says so, which lists all cases.
#[tactic(auto, using(crate::proofs::RightsTable::rights_are_listed))]
pub fn allowed_accesses_are_listed()
    ensures { RightsAreListed }
{}

/// An error code is that of the table of codes, which lists all cases.
#[tactic(auto, using(crate::proofs::RightsTable::codes_are_listed))]
pub fn error_codes_are_listed()
    ensures { CodesAreListed }
{}

/// If the first entry that is read lacks `PRESENT`, the access faults with P = 0, whatever lies below.
#[tactic(auto, using(crate::proofs::Corners::missing_entries_fault))]
pub fn missing_entries_fault()
    ensures { MissingEntriesFault }
{}

/// If the first entry that is read has a reserved bit, the access faults with P and RSVD, whatever lies below.
#[tactic(auto, using(crate::proofs::Corners::reserved_bits_fault))]
pub fn reserved_bits_fault()
    ensures { ReservedBitsFault }
{}

/// While EFER.NXE is off, `NO_EXECUTE` is a reserved bit.
#[tactic(auto, using(crate::proofs::Corners::no_execute_is_reserved))]
pub fn no_execute_is_reserved()
    ensures { NoExecuteIsReserved }
{}

/// Without pages of 1GiB, `HUGE_PAGE` is a reserved bit at level three.
#[tactic(auto, using(crate::proofs::Corners::huge_is_reserved))]
pub fn huge_page_is_reserved_without_1gib_pages()
    ensures { HugeIsReserved }
{}

/// To a processor that reserves it there, `GLOBAL` is a reserved bit at levels four and five.
#[tactic(auto, using(crate::proofs::Corners::global_is_reserved))]
pub fn global_is_reserved_above_level_three()
    ensures { GlobalIsReserved }
{}

/// To a processor with pages of 1GiB that ignores `GLOBAL` in entries that name tables, reserved bits are only those that every
/// processor reserves.
#[tactic(auto, using(crate::proofs::Corners::others_are_reserved))]
pub fn other_reserved_bits_are_of_every_processor()
    ensures { OthersAreReserved }
{}

/// A supervisor writes to its own pages without `WRITABLE` if and only if CR0.WP is off.
#[tactic(auto, using(crate::proofs::Corners::supervisors_write))]
pub fn write_protection_is_for_supervisors()
    ensures { SupervisorsWrite }
{}

/// With SMAP, a supervisor reads a user's pages if and only if EFLAGS.AC is on.
#[tactic(auto, using(crate::proofs::Corners::smap_keeps_out))]
pub fn smap_keeps_supervisors_out()
    ensures { SmapKeepsOut }
{}

/// A supervisor fetches from a user's page that may be executed if and only if SMEP is off.
#[tactic(auto, using(crate::proofs::Corners::smep_keeps_out))]
pub fn smep_keeps_supervisors_out()
    ensures { SmepKeepsOut }
{}

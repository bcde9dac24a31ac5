//! Requests with what the dump tells.
ghost use Rattle.std.specs.Prelude.{◌≡◌, IfOk, Ok};
ghost use Rattle.x86_64_dump.specs.Opened.{opened};
ghost use Rattle.x86_64_dump.specs.VmCoreInfo.{vmcoreinfo_of};
ghost use Rattle.linux_areas.specs.Areas.{area_layout};
ghost use Rattle.ptdump_engine.specs.NamedAreas as named;
ghost use Rattle.ptdump_engine.specs.Program.{IsTested};
ghost use Rattle.ptdump_engine.specs.Resolved.{resolved};
ghost use Rattle.ptdump_engine.specs.Steps.{Finds};
ghost use Rattle.ptdump_engine.specs.declared.request.AreaNames.TheVariants.{By};

use crate::failure::Failure;
use crate::noted_controls::with_noted_controls;
use crate::request::{AreaNames, Levels, Request};
use linux_areas::Layout;
use ptdump_json::{Origin, Start};
use std::alloc::Global;
use x86_64_dump::{ByteSource, Dump};

/// Returns a request, with what the dump tells in place of what it leaves open: the controls of its walk, and where Linux's areas lie.
///
/// # Errors
///
/// `Failure::Dump` if memory allocation fails, or if the dump can't be read.
pub fn resolve<S: ByteSource>(
    alloc: Global,
    dump: &Dump<S>,
    request: Request,
    start: &Start,
) -> Result<Request, Failure>
    ensures request { S.IsKnown → Finds S.may_fail result
        (Ok (resolved request (opened S.bytes dump.now) start.now)) }
    ensures tested { IsTested request.command → IfOk result (λ resolved. IsTested resolved.command) }
{
    let areas = names_for(alloc, dump, request.areas, start)?;
    let request = with_noted_controls(alloc, dump, request, start.registers)?;
    Ok(Request { areas, ..request })
}

/// Returns by which layout lines name areas, if they do.
fn names_for<S: ByteSource>(
    alloc: Global,
    dump: &Dump<S>,
    names: AreaNames,
    start: &Start,
) -> Result<AreaNames, Failure>
    ensures { S.IsKnown → Finds S.may_fail result
        (Ok (named.names_for names (opened S.bytes dump.now) start.now)) }
{
    match names {
        AreaNames::OfKernel if is_by_kernel(start.origin) => noted_layout(
            alloc,
            dump,
            start.levels,
        ),
        AreaNames::Always => noted_layout(alloc, dump, start.levels),
        AreaNames::OfKernel | AreaNames::By(_) => Ok(names),
    }
}

/// Returns true if VMCOREINFO says where the root is.
fn is_by_kernel(origin: Origin) -> bool
    ensures { result ≡ named.is_by_kernel origin }
{
    matches!(origin, Origin::ByKernel | Origin::ByText(_))
}

/// Returns the layout by what VMCOREINFO tells.
fn noted_layout<S: ByteSource>(
    alloc: Global,
    dump: &Dump<S>,
    levels: Levels,
) -> Result<AreaNames, Failure>
    ensures { S.IsKnown → Finds S.may_fail result
        (Ok (By (area_layout (vmcoreinfo_of (opened S.bytes dump.now)) levels))) }
{
    let text = dump.vmcoreinfo(alloc)?;
    let layout = match &text {
        Some(text) => Layout::of(Some(text), levels),
        None => Layout::of(None, levels),
    };
    Ok(AreaNames::By(layout))
}

//! The texts of replies.
ghost use Rattle.std.specs.Prelude.{◌≡◌, Some};
ghost use Rattle.std.specs.Fmt.{WritesOnOk};
ghost use Rattle.text.specs.Numbers.{hexadecimal};
ghost use Rattle.x86_64_tables.specs.Walks.{walked_of};
ghost use Rattle.pagetab_engine.specs.Reply.{reply_of};
ghost use Rattle.pagetab_engine.specs.Texts as texts;

use bitflags::Flags;
use std::fmt::{Display, Formatter, Result as FmtResult, Write};
use text::write_hexadecimal;
use x86_64::structures::paging::mapper::{
    FlagUpdateError, MapToError, MappedFrame, TranslateError, TranslateResult, UnmapError,
};
use x86_64::structures::paging::{PageSize, PhysFrame, Size4KiB};
use x86_64::{LevelCount, MapperReply, PageReply, PhysAddr, ReplyIn, Walked};

/// The reply to a call on a page that is not mapped.
const PAGE_NOT_MAPPED: &str = "page not mapped";

/// The reply to a call on a page that an entry above maps as part of a larger one.
const PARENT_ENTRY_HUGE_PAGE: &str = "parent entry huge page";

/// The reply to a command.
#[derive(Drop)]
pub enum Reply<L: LevelCount> {
    /// The mapper's answer to a call.
    Answered(ReplyIn<L>),
    /// Where the page walk arrives, or `None` if the address isn't mapped.
    Arrival(Option<Walked>),
    /// A word.
    Word(u64),
    /// The free frames, in order.
    Pool(Vec<PhysFrame<Size4KiB>>),
}

impl<L: LevelCount> Display for Reply<L> {
    ghost output = { λ reply. Some (texts.reply_text (reply_of reply)) };

    fn fmt<W: Write>(&self, f: &mut Formatter<W>) -> FmtResult {
        match self {
            Reply::Answered(reply) => write_answer(f, reply),
            Reply::Arrival(None) => f.write_str("none"),
            Reply::Arrival(Some(walked)) => write_walked(f, *walked),
            Reply::Word(word) => write_hexadecimal(f, *word),
            Reply::Pool(frames) => write_pool(f, frames),
        }
    }
}

/// Writes where a page walk arrives.
fn write_walked<W: Write>(f: &mut Formatter<W>, walked: Walked) -> FmtResult
    ensures { WritesOnOk W.write_str_gives f.old result (texts.walked_text (Some (walked_of walked))) f.new }
{
    let address = walked.address.as_u64();
    let write = u8::from(walked.write);
    let user = u8::from(walked.user);
    write!(f, "0x{address:x} write={write} user={user}")
}

/// Writes the free frames.
fn write_pool<W: Write>(f: &mut Formatter<W>, frames: &[PhysFrame<Size4KiB>]) -> FmtResult
    ensures { WritesOnOk W.write_str_gives f.old result (texts.pool_text frames.now) f.new }
{
    f.write_str("pool")?;
    for frame in frames {
        f.write_str(" ")?;
        write_address(f, frame.start_address())?;
    }
    Ok(())
}

/// Writes the reply to a call.
fn write_answer<L: LevelCount, W: Write>(f: &mut Formatter<W>, answer: &ReplyIn<L>) -> FmtResult
    ensures { WritesOnOk W.write_str_gives f.old result (texts.call_text answer.now) f.new }
{
    match answer {
        MapperReply::Of4KiB(reply) => write_page_reply(f, reply),
        MapperReply::Of2MiB(reply) => write_page_reply(f, reply),
        MapperReply::Of1GiB(reply) => write_page_reply(f, reply),
        MapperReply::Translate(translation) => write_translation(f, translation),
        MapperReply::Address(Some(address)) => write_address(f, *address),
        MapperReply::Address(None) => f.write_str("none"),
        MapperReply::Cleaned => f.write_str("ok"),
        MapperReply::NotAllowed => f.write_str("not allowed"),
    }
}

/// Writes the reply to a call on a page.
fn write_page_reply<P, S: PageSize, W: Write>(
    f: &mut Formatter<W>,
    reply: &PageReply<P, S>,
) -> FmtResult
    ensures { WritesOnOk W.write_str_gives f.old result (texts.page_text reply.now) f.new }
{
    match reply {
        PageReply::Map(Ok(_)) => f.write_str("ok"),
        PageReply::Map(Err(error)) => write_map_error(f, error),
        PageReply::Unmap(Ok((frame, _))) => write_address(f, frame.start_address()),
        PageReply::Unmap(Err(error)) => write_unmap_error(f, error),
        PageReply::Update(Ok(_)) | PageReply::TableFlags(Ok(())) => f.write_str("ok"),
        PageReply::Update(Err(error)) | PageReply::TableFlags(Err(error)) => {
            write_flags_error(f, error)
        }
        PageReply::Frame(Ok(frame)) => write_address(f, frame.start_address()),
        PageReply::Frame(Err(error)) => write_frame_error(f, error),
    }
}

/// Writes the reason why a page was not mapped.
fn write_map_error<S: PageSize, W: Write>(f: &mut Formatter<W>, error: &MapToError<S>) -> FmtResult
    ensures { WritesOnOk W.write_str_gives f.old result (texts.map_error_text error.now) f.new }
{
    match error {
        MapToError::FrameAllocationFailed => f.write_str("frame allocation failed"),
        MapToError::ParentEntryHugePage => f.write_str(PARENT_ENTRY_HUGE_PAGE),
        MapToError::PageAlreadyMapped(frame) => {
            f.write_str("page already mapped ")?;
            write_address(f, frame.start_address())
        }
    }
}

/// Writes the reason why a page was not unmapped.
fn write_unmap_error<W: Write>(f: &mut Formatter<W>, error: &UnmapError) -> FmtResult
    ensures { WritesOnOk W.write_str_gives f.old result (texts.unmap_error_text error.now) f.new }
{
    match error {
        UnmapError::PageNotMapped => f.write_str(PAGE_NOT_MAPPED),
        UnmapError::ParentEntryHugePage => f.write_str(PARENT_ENTRY_HUGE_PAGE),
        UnmapError::InvalidFrameAddress(address) => write_invalid_address(f, *address),
    }
}

/// Writes the reason why flags were not set.
fn write_flags_error<W: Write>(f: &mut Formatter<W>, error: &FlagUpdateError) -> FmtResult
    ensures { WritesOnOk W.write_str_gives f.old result (texts.flags_error_text error.now) f.new }
{
    f.write_str(match error {
        FlagUpdateError::PageNotMapped => PAGE_NOT_MAPPED,
        FlagUpdateError::ParentEntryHugePage => PARENT_ENTRY_HUGE_PAGE,
    })
}

/// Writes the reason why a page has no frame.
fn write_frame_error<W: Write>(f: &mut Formatter<W>, error: &TranslateError) -> FmtResult
    ensures { WritesOnOk W.write_str_gives f.old result (texts.frame_error_text error.now) f.new }
{
    match error {
        TranslateError::PageNotMapped => f.write_str(PAGE_NOT_MAPPED),
        TranslateError::ParentEntryHugePage => f.write_str(PARENT_ENTRY_HUGE_PAGE),
        TranslateError::InvalidFrameAddress(address) => write_invalid_address(f, *address),
    }
}

/// Writes that the address in a page's entry isn't that of a frame of the page's size.
fn write_invalid_address<W: Write>(f: &mut Formatter<W>, address: PhysAddr) -> FmtResult
    ensures { WritesOnOk W.write_str_gives f.old result (texts.invalid_frame_address_text address) f.new }
{
    f.write_str("invalid frame address ")?;
    write_address(f, address)
}

/// Writes what an address is mapped to.
fn write_translation<W: Write>(f: &mut Formatter<W>, translation: &TranslateResult) -> FmtResult
    ensures { WritesOnOk W.write_str_gives f.old result (texts.translation_text translation.now) f.new }
{
    match translation {
        TranslateResult::Mapped {
            frame,
            offset,
            flags,
        } => {
            let size = size_name(frame);
            let start = frame.start_address().as_u64();
            let offset = *offset;
            let flags = flags.bits();
            write!(f, "mapped {size} 0x{start:x} 0x{offset:x} 0x{flags:x}")
        }
        TranslateResult::NotMapped | TranslateResult::InvalidFrameAddress(_) => {
            f.write_str("not mapped")
        }
    }
}

/// Returns the name of a frame's size.
fn size_name(frame: &MappedFrame) -> &'static str
    ensures { result.now ≡ texts.size_name frame.now }
{
    match frame {
        MappedFrame::Size4KiB(_) => "4KiB",
        MappedFrame::Size2MiB(_) => "2MiB",
        MappedFrame::Size1GiB(_) => "1GiB",
    }
}

/// Writes an address.
fn write_address<W: Write>(f: &mut Formatter<W>, address: PhysAddr) -> FmtResult
    ensures { WritesOnOk W.write_str_gives f.old result (hexadecimal address) f.new }
{
    write_hexadecimal(f, address.as_u64())
}

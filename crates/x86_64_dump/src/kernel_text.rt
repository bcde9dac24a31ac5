//! Texts of VMCOREINFO in pages of memory.
ghost use Rattle.std.specs.Prelude.{◌≡◌, ◌+◌, ◌/◌, ◌≤◌, ◌<◌, ◌^◌, ◌++◌, ◌==◌, true, length, not, OnOk};
ghost use Rattle.std.specs.List.{find, list_all};
ghost use Rattle.x86_64_dump.specs.KernelTexts as specs;
ghost use Rattle.x86_64_dump.specs.VmCoreInfo as info;

use crate::vmcoreinfo::{Kernel, KernelFault};
use std::alloc::AllocError;

/// The size of a page.
pub const PAGE_SIZE: usize = 4096;

/// A text of VMCOREINFO in memory, which says where the kernel's root is.
#[derive(Clone, Copy, Debug, PartialEq, Eq)]
pub struct KernelText {
    /// The offset in the file of its first byte.
    pub offset: u64,
    /// What it says.
    pub kernel: Kernel,
}

/// Returns the first of some texts, if there is one and all say the same kernel.
///
/// # Errors
///
/// `KernelFault::Differ` if one says another kernel.
pub fn agreed_text(texts: &[KernelText]) -> Result<Option<KernelText>, KernelFault>
    ensures { result ≡ info.agreed_text texts.now }
{
    let Some(first) = texts.first() else {
        return Ok(None);
    };
    match other_text(texts, &first.kernel) {
        None => Ok(Some(*first)),
        Some(other) => Err(KernelFault::Differ {
            first: first.offset,
            other: other.offset,
        }),
    }
}

/// Returns the first of some texts that says another kernel.
fn other_text(texts: &[KernelText], kernel: &Kernel) -> Option<KernelText>
    ensures { result ≡ find (λ text. not (info.same_kernel text.kernel kernel.now)) texts.now }
{
    texts
        .iter()
        .copied()
        .find(|text| !text.kernel.is_same(kernel))
}

/// Adds the texts in whole pages, which are those from an offset of the file on.
pub fn push_texts(pages: &[u8], offset: u64, texts: &mut Vec<KernelText>) -> Result<(), AllocError>
    requires { offset + length pages.now < 2 ^ 64 }
    ensures { OnOk result (texts.new.items
        ≡ texts.old.items ++ specs.texts_in (length pages.now / 4096) offset pages.now) }
{
    let mut rest = pages;
    let mut at = offset;
    while rest.len() >= PAGE_SIZE {
        let (page, behind) = rest.split_at(PAGE_SIZE);
        push_text(page, at, texts)?;
        rest = behind;
        at += PAGE_SIZE as u64;
    }
    Ok(())
}

/// Adds the text in the page at an offset of the file, if there is one that says where the kernel's root is.
#[tactic(auto, unfolding(crate::specs::KernelTexts::page_texts))]
fn push_text(page: &[u8], offset: u64, texts: &mut Vec<KernelText>) -> Result<(), AllocError>
    requires { offset + length page.now < 2 ^ 64 }
    ensures { OnOk result (texts.new.items ≡ texts.old.items ++ specs.page_texts offset page.now) }
{
    let text = text_in(page);
    if let Ok(kernel) = Kernel::of(text) {
        let before = (page.len() - text.len()) as u64;
        texts.push(KernelText {
            offset: offset + before,
            kernel,
        })?;
    }
    Ok(())
}

/// Returns the text in a page, or nothing if there is none.
#[tactic(auto, using(crate::proofs::KernelTexts::blank_text))]
fn text_in(page: &[u8]) -> &[u8]
    ensures text { result.now ≡ specs.text_in_page page.now }
    ensures inside { length result.now ≤ length page.now }
{
    if is_blank(page) {
        return &page[page.len()..];
    }
    find_text(page)
}

/// Returns true if all bytes are 0, as those of a hole in a file are. This takes less time than a search for a text.
fn is_blank(page: &[u8]) -> bool
    ensures { result ≡ list_all (λ byte. byte == 0) page.now }
{
    page.iter().all(|byte| *byte == 0)
}

/// Returns the bytes from the first position on where the text begins, or nothing if there is none.
fn find_text(page: &[u8]) -> &[u8]
    ensures text { result.now ≡ specs.text_in_page page.now }
    ensures inside { length result.now ≤ length page.now }
{
    for at in 0..page.len() {
        if text_begins(page, at) {
            return &page[at..];
        }
    }
    &page[page.len()..]
}

/// Returns true if the text begins at a position.
fn text_begins(page: &[u8], at: usize) -> bool
    ensures { result ≡ specs.text_begins page.now at }
{
    match page.get(at..) {
        Some(behind) => begins_text(behind) && line_begins(page, at),
        None => false,
    }
}

/// Returns true if a line begins at a position.
fn line_begins(page: &[u8], at: usize) -> bool
    ensures { result ≡ specs.line_begins page.now at }
{
    if at == 0 {
        return true;
    }
    match page.get(at - 1) {
        Some(byte) => ends_line(*byte),
        None => false,
    }
}

/// Returns true if bytes begin as the text does.
#[tactic(auto, unfolding(crate::specs::KernelTexts::begins_text))]
fn begins_text(bytes: &[u8]) -> bool
    ensures { result ≡ specs.begins_text bytes.now }
{
    bytes.starts_with(b"OSRELEASE=")
}

/// Returns true if a line may begin behind a byte.
fn ends_line(byte: u8) -> bool
    ensures { result ≡ specs.ends_line byte }
{
    byte == b'\n' || byte == 0
}

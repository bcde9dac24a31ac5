//! What happens to the tokens of calls: they are ignored, or flushed into a recorder.
ghost use Rattle.std.specs.Prelude.{◌≡◌, ◌+◌, ◌++◌, [], ◌∷◌, ℕ, Bool, List};
ghost use Rattle.x86_64_tables.specs.declared.tokens.recorder.FlushItem.{FlushItem as Item};
ghost use Rattle.x86_64_tables.specs.FlushRecorder.{page_item};
ghost use Rattle.x86_64_tables.specs.MapperAnswers.{flags_refusal};
ghost use Rattle.x86_64.specs.Flushes.{items_of_page, unmapped_items, every_item};
ghost use Rattle.x86_64.specs.private.Served.{recorded};

use x86_64_addr::level_count::LevelCount;
use x86_64_page::frame::PhysFrame;
use x86_64_page::page::{PageIn, PageSize};
use x86_64_tables::errors::{FlagUpdateError, UnmapError};
use x86_64_tables::tokens::{FlushItem, FlushRecorder, MapperFlushAll, MapperFlushIn};

/// A consumer of the tokens of accepted calls.
pub trait Tokens {
    // whether tokens are recorded
    ghost records: { Bool };

    // the items that were recorded so far
    ghost items: { Self → List Item };

    // whether this number of tokens can still be taken
    ghost has_room: { Self → ℕ → Type 0 };

    ghost fewer: { (tokens : Self) (n : ℕ) → has_room tokens (n + 1) → has_room tokens n };

    /// Takes the token of a page.
    fn page<S: PageSize, L: LevelCount>(&mut self, flush: MapperFlushIn<S, L>)
        requires { Self.has_room self.old 1 }
        ensures items { Self.items self.new ≡ Self.items self.old
            ++ recorded Self.records (page_item L.LEVELS flush S.SIZE ∷ []) }
        ensures room { (n : ℕ) → Self.has_room self.old (n + 1) → Self.has_room self.new n };

    /// Takes the token of all pages.
    fn all(&mut self, flush: MapperFlushAll)
        requires { Self.has_room self.old 1 }
        ensures items { Self.items self.new ≡ Self.items self.old
            ++ recorded Self.records (FlushItem.All ∷ []) }
        ensures room { (n : ℕ) → Self.has_room self.old (n + 1) → Self.has_room self.new n };
}

/// A consumer that ignores each token.
#[derive(Drop)]
pub struct Ignored;

impl Tokens for Ignored {
    ghost use Rattle.std.specs.Prelude.{false, ⊤};

    ghost records = { false };

    ghost items = { λ _. [] };

    ghost has_room = { λ _ _. ⊤ };

    fn page<S: PageSize, L: LevelCount>(&mut self, flush: MapperFlushIn<S, L>) {
        flush.ignore();
    }

    fn all(&mut self, flush: MapperFlushAll) {
        flush.ignore();
    }

    ghost fewer = { λ tokens n room. tt };
}

/// Flushes each token. No memory is allocated while there is room, so no token comes back.
impl Tokens for FlushRecorder {
    ghost use Rattle.std.specs.Prelude.{true, ◌≤◌};
    ghost use Rattle.x86_64.specs.private.Served.{less_room};

    ghost records = { true };

    ghost items = { λ recorder. recorder.items };

    ghost has_room = { λ recorder n. n ≤ recorder.room };

    fn page<S: PageSize, L: LevelCount>(&mut self, flush: MapperFlushIn<S, L>) {
        if let Err(flush) = flush.flush(self) {
            flush.ignore();
        }
    }

    fn all(&mut self, flush: MapperFlushAll) {
        if let Err(flush) = flush.flush_all(self) {
            flush.ignore();
        }
    }

    ghost fewer = { λ recorder n room. less_room n recorder.room room };
}

/// Passes on the token of an accepted call, and returns its page.
pub fn take<S: PageSize, L: LevelCount, E, K: Tokens>(
    tokens: &mut K,
    flushed: Result<MapperFlushIn<S, L>, E>,
) -> Result<PageIn<S, L>, E>
    requires { K.has_room tokens.old 1 }
    ensures result { result ≡ flushed }
    ensures items { K.items tokens.new ≡ K.items tokens.old
        ++ recorded K.records (items_of_page L.LEVELS S.SIZE result) }
    ensures room { (n : ℕ) → K.has_room tokens.old (n + 1) → K.has_room tokens.new n }
{
    let flush = flushed?;
    let page = flush.page();
    tokens.page(flush);
    Ok(page)
}

/// Passes on the token of an accepted unmap, and returns the frame and the token's page.
pub fn take_unmapped<S: PageSize, L: LevelCount, K: Tokens>(
    tokens: &mut K,
    unmapped: Result<(PhysFrame<S>, MapperFlushIn<S, L>), UnmapError>,
) -> Result<(PhysFrame<S>, PageIn<S, L>), UnmapError>
    requires { K.has_room tokens.old 1 }
    ensures result { result ≡ unmapped }
    ensures items { K.items tokens.new ≡ K.items tokens.old
        ++ recorded K.records (unmapped_items L.LEVELS S.SIZE result) }
    ensures room { (n : ℕ) → K.has_room tokens.old (n + 1) → K.has_room tokens.new n }
{
    let (frame, flush) = unmapped?;
    let page = flush.page();
    tokens.page(flush);
    Ok((frame, page))
}

/// Passes on the token of an accepted change to a table entry.
pub fn take_all<K: Tokens>(
    tokens: &mut K,
    flushed: Result<MapperFlushAll, FlagUpdateError>,
) -> Result<(), FlagUpdateError>
    requires { K.has_room tokens.old 1 }
    ensures result { flags_refusal result ≡ flags_refusal flushed }
    ensures items { K.items tokens.new ≡ K.items tokens.old ++ recorded K.records (every_item result) }
    ensures room { (n : ℕ) → K.has_room tokens.old (n + 1) → K.has_room tokens.new n }
{
    tokens.all(flushed?);
    Ok(())
}

// Laws of entries that a kernel changes itself, each by one write of a word.
ghost use Rattle.x86_64_model.specs.Laws.EntriesInPlace.{EntriesMayChange, EntriesStayInPlace, UsedEntriesAreInPlace, WalksIgnoreBits};

/// A kernel may itself change an entry by one write of its word between calls, if the old and the new word
/// both name no table, or both name the same table. Each used entry outside the recursive window can be
/// changed so, again and again.
pub fn entries_may_change()
    ensures change { EntriesMayChange }
    ensures stay { EntriesStayInPlace }
    ensures used { UsedEntriesAreInPlace }
{}

/// Changes of `ACCESSED`, `DIRTY` and other bits that no page walk reads change no page walk.
pub fn walks_ignore_bits()
    ensures { WalksIgnoreBits }
{}

// Laws of live tables: exchanges of entries between calls, and marks at any moment.
ghost use Rattle.x86_64_model.specs.Laws.Live.{NoMarkIsLost, LiveTablesFit, MarksMayReplace, ExchangesDuringCalls, WhoTakesFlagsSeesThem, MarkIsLost, EntryIsPutBack};

/// Marks and exchanges of single words leave a hierarchy for which the next call may be made. Each used entry
/// may be marked. An entry may also be exchanged while a processor makes calls that don't touch its word.
pub fn live_tables_fit()
    ensures fit { LiveTablesFit }
    ensures marks { MarksMayReplace }
    ensures during { ExchangesDuringCalls }
{}

/// A mark that a processor made in an entry is there now, or an exchange has learned it since. If no turn is
/// a plain write of a word, an exchange that takes flags of the word away saw them.
pub fn marks_are_never_lost()
    ensures entries { NoMarkIsLost }
    ensures words { WhoTakesFlagsSeesThem }
{}

/// A change that reads an entry and then writes it can lose a mark that comes in between, and can put back an
/// entry that was taken away.
pub fn reading_and_writing_loses_marks()
    ensures lost { MarkIsLost }
    ensures put_back { EntryIsPutBack }
{}

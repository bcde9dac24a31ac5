// Laws of a table of smaller pages in the place of a larger page, and of a larger page in the place of such a table.
ghost use Rattle.x86_64_model.specs.Laws.Splits.{PagesMayBeSplit, PagesMayBeJoined, PagesHaveParts, LargePagesHaveTables, ArrivalsSayWalks};

/// A 2MiB or 1GiB page may be split into 512 smaller ones, in a frame from the pool. Each walk arrives as before, with the same
/// rights, outside the recursive window.
pub fn pages_may_be_split()
    ensures { PagesMayBeSplit }
{}

/// 512 pages that are the parts of a larger one may be joined. Each walk arrives as before, with the same rights, outside the
/// recursive window. The frame of their table goes back to the pool.
pub fn pages_may_be_joined()
    ensures { PagesMayBeJoined }
{}

/// Each 2MiB page, and each 1GiB page whose PAT bit is clear, has 512 words that are its parts. A table of these words in any
/// frame is one into which the page may be split, if its entry has PRESENT, WRITABLE and USER_ACCESSIBLE.
pub fn pages_have_parts()
    ensures parts { PagesHaveParts }
    ensures tables { LargePagesHaveTables }
{}

/// The page walk arrives where an access without any cache arrives, with its rights to write and of user mode.
pub fn arrivals_say_walks()
    ensures { ArrivalsSayWalks }
{}

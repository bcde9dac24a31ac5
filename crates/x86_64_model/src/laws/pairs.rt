// The law of two machines with path maps that are alike.
ghost use Rattle.x86_64_model.specs.Laws.Pairs.{PairsReplyAlike};

/// Two machines with the same number of levels, with equal pools that take frames back alike, and with path maps that are equal
/// except for WRITABLE of table entries give the same replies to calls that name no recursive index of either. They end with
/// such pools and path maps.
pub fn alike_machines_reply_alike()
    ensures { PairsReplyAlike }
{}

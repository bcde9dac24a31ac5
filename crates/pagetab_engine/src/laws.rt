//! Laws of the transcript, as public functions with empty bodies.
ghost use Rattle.pagetab_engine.specs.BothMappers.{BothMappersReply};

/// In a pair, the recursive mapper has the same replies as the direct one to the calls and to `pool` in any lines behind an
/// image that fits. So those in the transcript of [`run`](crate::engine::run) are the replies of both mappers. Only `walk`
/// and `show` may differ, which read the memory.
pub fn both_mappers_reply_alike()
    ensures { BothMappersReply }
{}

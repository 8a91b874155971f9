//! Laws of the client. Their functions do nothing: the contract is the law.
ghost use Rattle.afp_client.specs.session.Laws.{BadHeaderDecides, BreakKeeps, EachHasItsResult, FollowsJoin, FrameDecides, LinkAsks, LinkBegins, LinkBreaks, LinkIsFed, LinkTakes, NoneDecides, OpeningKeeps};
ghost use Rattle.afp_client.specs.session.TokenLaws.{FoundIsShown, ShownIsFound};

/// What stands at the front decides what the next event is, but that memory may run out: a whole frame, whose step is made or which is bad,
/// a bad header, or neither.
pub fn the_next_frame_decides()
    ensures frame { FrameDecides }
    ensures none { NoneDecides }
    ensures header { BadHeaderDecides }
{}

/// A break keeps the request that waits, the token and the next id of the commands; so does each step of the opening of the next link,
/// where there is a token, and when that is done, the request is written again as it was, with its id.
pub fn what_waits_is_kept()
    ensures broke { BreakKeeps }
    ensures opening { OpeningKeeps }
{}

/// Steps follow one another.
pub fn steps_join()
    ensures { FollowsJoin }
{}

/// On a link the calls of a client are its steps over all bytes that came, into whatever pieces they were cut; a break and the next link come
/// behind them.
pub fn bytes_come_in_any_pieces()
    ensures begin { LinkBegins }
    ensures feed { LinkIsFed }
    ensures ask { LinkAsks }
    ensures take { LinkTakes }
    ensures breaks { LinkBreaks }
{}

/// Each call that was asked has one result, in order, over all breaks, but for the last while it waits.
pub fn each_call_has_its_result()
    ensures { EachHasItsResult }
{}

/// The token that is found in a payload is the one that it shows as a reply to FPGetSessionToken, where that is not too long.
pub fn a_token_is_read()
    ensures shown { ShownIsFound }
    ensures found { FoundIsShown }
{}

//! Laws of turns. Their functions do nothing: the contract is the law.
ghost use Rattle.afp_server.specs.connection.Turn.{OneLinksTurn, OneLinksPlaces};
ghost use Rattle.afp_server.specs.connection.Standing.{OthersLeave};
ghost use Rattle.afp_server.specs.connection.Whole.{IsServedWhole};

/// In a turn of one link its own places go on by what it asked, and for each other link nothing was asked.
pub fn turns_are_of_one_link()
    ensures { OneLinksTurn }
{}

/// A turn's places are those of its link, and of no other; the places of each link rise.
pub fn a_place_is_one_links()
    ensures { OneLinksPlaces }
{}

/// Where a link stands between its turns, it stands behind another link's turn.
pub fn others_turns_change_nothing()
    ensures { OthersLeave }
{}

/// A link that was served in turns to its end, and then parted, was served whole, out of its own places.
pub fn a_link_is_served_whole()
    ensures { IsServedWhole }
{}

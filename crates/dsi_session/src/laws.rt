//! Laws of options and ids. Their functions do nothing: the contract is the law.
ghost use Rattle.dsi_session.specs.OptionLaws.{IsReadOrStops, IsReadOneWay, HasOneList, StopsOnce};
ghost use Rattle.dsi_session.specs.RequestIds.{CountsInRounds};

/// Every payload is options, or stops where one does not fit; it is not both, and there is one list of
/// options, and one place.
pub fn one_way_to_read()
    ensures some { IsReadOrStops }
    ensures exclusive { IsReadOneWay }
    ensures one_list { HasOneList }
    ensures one_place { StopsOnce }
{}

/// The id behind n others is n, less whole rounds of 65,536.
pub fn ids_count_in_rounds()
    ensures { CountsInRounds }
{}

//! Laws of the words. Each function says one, and does nothing.
ghost use Rattle.afptool_lib.specs.client.Worked.{SaysBad, SaysGood};

/// What lines of words say, worked by hand.
pub fn worked_words_hold()
    ensures good { SaysGood }
    ensures bad { SaysBad }
{}

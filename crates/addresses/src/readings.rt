// The laws of reading. Each function's contract is one law, for crates above to cite.
ghost use Rattle.addresses.specs.Laws.{ReadExactly, AcceptedTakesAll, ReadIsProper, OneReading};

pub fn read_is_accepted_exactly()
    ensures { ReadExactly }
{}

pub fn accepted_read_takes_all()
    ensures { AcceptedTakesAll }
{}

pub fn whatever_is_read_is_proper()
    ensures { ReadIsProper }
{}

pub fn text_has_one_reading()
    ensures { OneReading }
{}

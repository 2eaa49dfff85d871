// The laws of proper lists and of their written texts.
ghost use Rattle.addresses.specs.Laws.{ReadsBack, ReadableIsProper, OneList, FineIsProper};

pub fn proper_list_reads_back()
    ensures { ReadsBack }
{}

pub fn readable_is_proper()
    ensures { ReadableIsProper }
{}

pub fn written_text_is_of_one_list()
    ensures { OneList }
{}

pub fn fine_is_proper()
    ensures { FineIsProper }
{}

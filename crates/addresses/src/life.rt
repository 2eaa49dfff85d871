// The law of a list's life.
ghost use Rattle.addresses.specs.LifeLaws.{EventLaw, LifeLaw, LifeDecides};

pub fn every_event_keeps_the_law()
    ensures { EventLaw }
{}

pub fn every_life_keeps_the_law()
    ensures { LifeLaw }
{}

pub fn the_law_allows_one_list()
    ensures { LifeDecides }
{}

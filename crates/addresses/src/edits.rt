// The laws of additions and removals.
ghost use Rattle.addresses.specs.WellFormed.{CharactersFound};
ghost use Rattle.addresses.specs.EditSamples.{EditSamplesHold};
ghost use Rattle.addresses.specs.EditLaws.{AdditionsJudged, AdditionsDenied, AdditionsDefinite, RemovalsExact, RemovalsProper, RemovalsRefused, LooksRefused};

pub fn characters_of_bytes_are_found()
    ensures { CharactersFound }
{}

pub fn addition_is_accepted_exactly()
    ensures { AdditionsJudged }
{}

pub fn addition_without_its_provisos_is_refused()
    ensures { AdditionsDenied }
{}

pub fn addition_would_leave_one_list()
    ensures { AdditionsDefinite }
{}

pub fn removal_takes_just_its_part()
    ensures { RemovalsExact }
{}

pub fn removal_leaves_a_proper_list()
    ensures { RemovalsProper }
{}

pub fn removal_is_refused_for_what_is_missing()
    ensures { RemovalsRefused }
{}

pub fn look_is_refused_for_what_is_missing()
    ensures { LooksRefused }
{}

pub fn edit_samples_hold()
    ensures { EditSamplesHold }
{}

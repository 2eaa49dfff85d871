// A comma between two texts, or two rows of marks, joins what they read as.
ghost use Rattle.addresses.specs.Joins.{CommaJoins, CommaJoinsMarks};

pub fn comma_joins()
    ensures { CommaJoins }
{}

pub fn comma_joins_marks()
    ensures { CommaJoinsMarks }
{}

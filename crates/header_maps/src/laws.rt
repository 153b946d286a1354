// What holds of the field operations, each as the contract of a function.
ghost use Rattle.header_maps.specs.Examples.{OperationExamples, FaultExamples, StatusExamples, SetExamples, KeptExamples, PlaceExamples};
ghost use Rattle.header_maps.specs.Laws.{JudgedAlike, StatusReadBack, AddedIsFound, RemovedIsAbsent, ReplacedInPlace, SetGivesBack, SetKeepsGiven};

/// Names and values of fields are judged as `http_header` judges them.
pub fn judged_alike()
    ensures { JudgedAlike }
{}

/// The digits of a status are read back as that status.
pub fn status_read_back()
    ensures { StatusReadBack }
{}

/// What is added is found behind the former values of its name, and under no other name.
pub fn added_is_found()
    ensures { AddedIsFound }
{}

/// What is removed is not found, and the fields of other names stay.
pub fn removed_is_absent()
    ensures { RemovedIsAbsent }
{}

/// What is put in place is the one value of its name, at the place of the first, and the other fields stay.
pub fn replaced_in_place()
    ensures { ReplacedInPlace }
{}

/// A list that is given its own pairs stays as it is.
pub fn set_gives_back()
    ensures { SetGivesBack }
{}

/// What is given for a whole list is kept, up to the case of names and their order.
pub fn set_keeps_given()
    ensures { SetKeepsGiven }
{}

/// The definitions, worked on lists that are written out.
pub fn worked_examples()
    ensures operations { OperationExamples }
    ensures faults { FaultExamples }
    ensures statuses { StatusExamples }
    ensures sets { SetExamples }
    ensures kept { KeptExamples }
    ensures places { PlaceExamples }
{}

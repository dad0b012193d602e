//! The laws, each as a clause of a function that does nothing.

ghost use Rattle.hill_valley.specs.Laws.{RunLaws, StepsAreUnique};

/// Ropes stand for one list for good, however many more are made; the numbers and the tasks of runs that are put in or appended.
pub fn runs()
    ensures { RunLaws }
{
    side_laws::laws::inserting();
}

/// The steps of a side are determined by its lowest levels.
pub fn staircases()
    ensures { StepsAreUnique }
{}

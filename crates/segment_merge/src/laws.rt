//! The laws, each as a clause of a function that does nothing.

ghost use Rattle.segment_merge.specs.Laws.{AllSidesStay, ProfileOfInserts, ProfileOfMerge, MergedAtEachUp, TasksOfMerge, InsertsAssociate};
ghost use Rattle.segment_merge.specs.Laws.{MovedBefore, MovedBehind, AppendsInsert, ProfileOfAppends, TasksOfAppends, ProfileOfCrossing};
ghost use Rattle.segment_merge.specs.Laws.{TasksOfCrossing, SideLaws};

/// Sides merged, with their tasks.
pub fn merged_runs()
    ensures stay { AllSidesStay }
    ensures inserts { ProfileOfInserts }
    ensures profile { ProfileOfMerge }
    ensures at_each_up { MergedAtEachUp }
    ensures tasks { TasksOfMerge }
    ensures associate { InsertsAssociate }
    ensures before { MovedBefore }
    ensures behind { MovedBehind }
{
    hill_valley::laws::runs();
}

/// A side behind a side, also over a hill, with their tasks.
pub fn crossed_runs()
    ensures appends { AppendsInsert }
    ensures profile_of_appends { ProfileOfAppends }
    ensures tasks_of_appends { TasksOfAppends }
    ensures profile { ProfileOfCrossing }
    ensures tasks { TasksOfCrossing }
{
    hill_valley::laws::runs();
}

/// The laws of this layer and of those below, in one.
pub fn all()
    ensures { SideLaws }
{
    side_laws::laws::one_side();
    side_laws::laws::appending();
    side_laws::laws::crossing();
    side_laws::laws::merging();
    side_laws::laws::counting();
    hill_valley::laws::runs();
    merged_runs();
    crossed_runs();
}

//! The laws, each as a clause of a function that does nothing.

ghost use Rattle.sp_cuts.specs.Laws.{PartsStay, AllPartsStay, RoughPartsStay, AllRoughPartsStay, NumbersWithinPeak, NumbersWithoutNames};
ghost use Rattle.sp_cuts.specs.StairLaws.{SomeStaircase, OneStaircase, EachStepIsReached};
ghost use Rattle.sp_cuts.specs.StairLaws.{SomeStairs, OneStairs};

/// A part stays as it is, however many more ropes are made.
pub fn parts_stay()
    ensures part { PartsStay }
    ensures all { AllPartsStay }
    ensures rough { RoughPartsStay }
    ensures all_rough { AllRoughPartsStay }
{
    segment_merge::laws::all();
}

/// The first, the last and the least memory of a part are within its peak, and the least is within the others.
pub fn within_peak()
    ensures { NumbersWithinPeak }
{
    segment_merge::laws::all();
}

/// The numbers of a term's cut are the same whatever its tasks are called.
pub fn without_names()
    ensures { NumbersWithoutNames }
{
    segment_merge::laws::all();
}

/// A term has one staircase in each direction, each of whose levels is the least memory that is reached
/// within its bound. So a list of positions has one list of the staircases of its terms.
pub fn one_staircase()
    ensures some { SomeStaircase }
    ensures one { OneStaircase }
    ensures each { EachStepIsReached }
    ensures some_of_all { SomeStairs }
    ensures one_of_all { OneStairs }
{
    segment_merge::laws::all();
    hill_valley::laws::staircases();
    sp_terms::laws::position_law();
    cut_laws::laws::stands_law();
}

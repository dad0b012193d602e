//! The laws, each as a clause of a function that does nothing.

ghost use Rattle.side_laws.specs.Laws.{LowestBetween, LowestMonotone, LowestAfterAll, LowestIsStuck, TopAboveLevel, TopPasses, StuckByLast};
ghost use Rattle.side_laws.specs.Laws.{NetOfAppend, AppendRises, LowestOfAppend, TopOfAppend};
ghost use Rattle.side_laws.specs.Laws.{NetOfCrossing, CrossingRises, LowestOfCrossing, TopOfCrossing};
ghost use Rattle.side_laws.specs.Laws.{NetOfInsert, InsertRises, LowestOfInsert, InsertsCommute};
ghost use Rattle.side_laws.specs.Laws.{NetOfInserts, MergeRises, MergeOfOne, LowestOfMerge, TopOfMerge, LevelsOfMerge};
ghost use Rattle.side_laws.specs.Laws.{MovesOfSeries, MovesOfMoreTasks, MovesOfParallel, MovesBounded};

/// The lowest level and the top of one side, under every limit.
pub fn one_side()
    ensures between { LowestBetween }
    ensures monotone { LowestMonotone }
    ensures after_all { LowestAfterAll }
    ensures stuck { LowestIsStuck }
    ensures above { TopAboveLevel }
    ensures passes { TopPasses }
    ensures by_last { StuckByLast }
{}

/// A segment put at the end of a side.
pub fn appending()
    ensures net { NetOfAppend }
    ensures rising { AppendRises }
    ensures lowest { LowestOfAppend }
    ensures top { TopOfAppend }
{}

/// A side that goes on over a hill to another.
pub fn crossing()
    ensures net { NetOfCrossing }
    ensures rising { CrossingRises }
    ensures lowest { LowestOfCrossing }
    ensures top { TopOfCrossing }
{}

/// A segment put in at its place.
pub fn inserting()
    ensures net { NetOfInsert }
    ensures rising { InsertRises }
    ensures lowest { LowestOfInsert }
    ensures commute { InsertsCommute }
{}

/// Several sides merged: the merged side goes down as all of them go down together (Liu 1987).
pub fn merging()
    ensures net { NetOfInserts }
    ensures rising { MergeRises }
    ensures one { MergeOfOne }
    ensures lowest { LowestOfMerge }
    ensures top { TopOfMerge }
    ensures levels { LevelsOfMerge }
{}

/// Few segments are moved where the smaller side is moved into the larger each time.
pub fn counting()
    ensures series { MovesOfSeries }
    ensures more_tasks { MovesOfMoreTasks }
    ensures parallel { MovesOfParallel }
    ensures bounded { MovesBounded }
{}

//! The laws of the pool, for every list of events.
//!
//! A pool is a cutter, workers, a sequencer and a writer, with the queues between them. An event is one atomic step of
//! one of them. A run is any list of events, each of which is possible in the state after those before it. No law says
//! that an event happens: a pool in which nothing happens any more is sound too. But before the end some move is
//! always possible, and the number of moves in a run has an upper bound.
ghost use Rattle.std.specs.Prelude.{◌≡◌, ◌+◌, List, ◌++◌, length, IsTrue};
ghost use Rattle.dump_lanes.specs.Arrivals.{NoneClash, AllReleased};
ghost use Rattle.dump_lanes.specs.PoolWorld.{PoolSize, World};
ghost use Rattle.dump_lanes.specs.PoolEvents.{Event, is_enabled};
ghost use Rattle.dump_lanes.specs.PoolFacts.{EveryRunIsSound};
ghost use Rattle.dump_lanes.specs.PoolMoves.{NoDeadEnd, OnlyDoneStandsStill, ClosedKeepsNobody};
ghost use Rattle.dump_lanes.specs.PoolParts.{SharesEvent, LeavesOthers, PartsAllow};
ghost use Rattle.dump_lanes.specs.PoolProgress.{EveryMoveCounts, NoEndlessWay, EveryRunCanEnd, NeverFull};
ghost use Rattle.dump_lanes.specs.PoolSettling.{AfterAStop, EndedCutsNothing, IdleEventsSettle};
ghost use Rattle.dump_lanes.specs.PartSteps.{Part, AreSteps, all_put, all_taken};
ghost use Rattle.dump_lanes.specs.RunSteps.{EveryRunMakesSteps};
ghost use Rattle.dump_lanes.specs.StepMoves.{CreditsMoveOne, JobsMoveOne, DonesMoveOne, PiecesMoveOne, WordOnlyRises};
ghost use Rattle.dump_lanes.specs.declared.steps.Step.{Step};

/// Each event is a step on some of the parts that threads share, and a change of what its own thread owns. So the rule
/// of a part can be stated for that part alone.
pub fn every_part_shares_each_event()
    ensures shares { (size : PoolSize) (w : World) (event : Event) → SharesEvent size w event }
    ensures own { (size : PoolSize) (w : World) (event : Event) → LeavesOthers size w event }
    ensures allows { (size : PoolSize) (w : World) (event : Event) →
        IsTrue (is_enabled size w event) → PartsAllow w event }
{}

/// If the steps on a queue are those of the pool's events, the queue holds what was put less what was taken, in order.
/// Each step puts or takes one entry.
pub fn every_queue_keeps_order<E>()
    ensures order { (part : Part E) (happened : List (Step E)) (items : List E) →
        AreSteps part happened items → all_put part happened ≡ all_taken part happened ++ items }
    ensures one_each { (part : Part E) (happened : List (Step E)) (items : List E) →
        AreSteps part happened items →
        length happened ≡ length (all_put part happened) + length (all_taken part happened) }
{}

/// Each step on a shared part belongs to one of two threads, and moves one entry: in at the back, or out at the front.
/// A raise sets the stop word, and nothing clears it.
pub fn every_step_moves_one_entry<T>()
    ensures credits { CreditsMoveOne }
    ensures jobs { JobsMoveOne T }
    ensures dones { DonesMoveOne T }
    ensures pieces { PiecesMoveOne T }
    ensures word { WordOnlyRises }
{}

/// On each shared part, every run makes steps that the part's rule allows: a history that has a step for each event of
/// the run on that part, and leads to the state of the part after the run.
pub fn every_run_makes_steps()
    ensures { EveryRunMakesSteps }
{}

/// Whatever the threads do, in whatever order, the state of a pool is sound at each moment, if it has at least one
/// worker and a window of at least one item.
pub fn every_run_is_sound()
    ensures { EveryRunIsSound }
{}

/// Numbered items arrive in any order, each once. If no more than a window of them wait, each finds its slot free. If
/// the next item isn't there, all that arrived were released.
pub fn items_come_in_order()
    ensures apart { NoneClash }
    ensures all { AllReleased }
{}

/// In each state before the end some thread can make a move, and the state says which thread and which move. No move
/// is possible exactly if all is done, and no worker waits after all end marks are put.
pub fn no_state_is_a_dead_end()
    ensures next { NoDeadEnd }
    ensures still { OnlyDoneStandsStill }
    ensures closed { ClosedKeepsNobody }
{}

/// The state after a run says how many moves the run had: each move adds one to this number, and no other event
/// changes it.
pub fn every_move_counts()
    ensures { EveryMoveCounts }
{}

/// A run that cuts `n` items makes at most eight moves for each of them, four for each worker, and one more.
pub fn no_run_goes_on_without_end()
    ensures { NoEndlessWay }
{}

/// From each state that a run reaches, the moves that may be made in turn lead to the end.
pub fn every_run_can_end()
    ensures { EveryRunCanEnd }
{}

/// A queue with a place for each item of the window and for each worker's mark always has a place for a put.
pub fn no_queue_is_overfull()
    ensures { NeverFull }
{}

/// After the stop flag is raised at most one more item is cut, and none once the cutter has ended or was closed.
pub fn a_stop_ends_the_cutting()
    ensures stop { AfterAStop }
    ensures ended { EndedCutsNothing }
{}

/// An event that is no move changes something at most once, so no thread waits for one.
pub fn idle_events_settle()
    ensures { IdleEventsSettle }
{}

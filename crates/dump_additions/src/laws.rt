//! Laws of expanded dumps. Each law is the contract of a function that does nothing.
ghost use Rattle.dump_additions.specs.steps.AdditionLaws.{AdditionsCopyOverNothing, AdditionsExpand, AdditionsLoadTheSame};

/// If a dump loads, what is written in place of its copies has the same effect as these, change by change. So the
/// expanded dump loads to the same trees. And no copy in it is over something that its own revision changed, which
/// `svnadmin load` rejects.
pub fn additions_load_the_same()
    ensures expand { AdditionsExpand }
    ensures load { AdditionsLoadTheSame }
    ensures over { AdditionsCopyOverNothing }
{}

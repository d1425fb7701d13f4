//! Laws of runs. A caller learns the laws from the contracts; the calls do nothing.

ghost use Rattle.rw_runs.specs.Ends.{EndedIsEnd, NeverAborts, ComesToEnd, SureHasEnd};
ghost use Rattle.rw_runs.specs.Turns.{TurnsStayWithin};

/// A run that has ended stands in an end of main, whether or not main was sure to end.
pub fn ended_run()
    ensures { EndedIsEnd }
{}

/// From where main is sure no run aborts, and with enough steps each run ends or meets a number that is too wide.
pub fn sure_run()
    ensures aborts { NeverAborts }
    ensures ends { ComesToEnd }
{}

/// Code that is sure has an end.
pub fn sure_end()
    ensures { SureHasEnd }
{}

/// Where main is sure with loops that go by their variants, no entry of a loop in a run begins more turns than the larger of 0
/// and the variant's value at entry: also in runs that are cut by the limit or by width.
pub fn turns()
    ensures { TurnsStayWithin }
{}

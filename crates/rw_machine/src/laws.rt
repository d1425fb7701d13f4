//! What is kept of a run. A caller learns the laws from the contracts; the calls do nothing.

ghost use Rattle.rw_machine.specs.Runs.{NumbersHold, CountsAreFew, EndsHaveValues};
ghost use Rattle.rw_machine.specs.Kept.{StepsMayGoOn, StepOfKept};

/// In each configuration of a run the loops of the commands' programs have numbers of the code.
pub fn numbers()
    ensures { NumbersHold }
{}

/// In each configuration of a run no count of a loop passes the number of steps.
pub fn counts()
    ensures { CountsAreFew }
{}

/// As long as the steps can be counted, a step of the code may be asked for; and a step of what is kept of a configuration is what is
/// kept of its step.
pub fn steps_of_code()
    ensures may { StepsMayGoOn }
    ensures kept { StepOfKept }
{}

/// Where a run of code that fits has ended, one state is left, in which each global has a value.
pub fn ended_values()
    ensures { EndsHaveValues }
{}

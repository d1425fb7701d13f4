//! Laws of calls and of modules. A caller learns them from the contracts; the calls do nothing.

ghost use Rattle.rw_calls.specs.Heads.{HeadsMeet, OperationsMeet, StartsMeet, CallsKeep, OperationsKeep, StartsKeep};
ghost use Rattle.rw_calls.specs.Sound.{CallsAreSound, CallsAreSoundBeside, BlocksAreSound, BlockKidsAreReady, OperationsAreSound};

/// Where the law of a call fits a well-formed specification, the procedure meets its head, and the obligations are valid, the call
/// refines the specification. `context`: at the states of the context, which hold a part for each opened module. `beside`: at the states
/// that fit the scope and have any given parts; with none, at all that fit the scope.
pub fn calls()
    ensures context { CallsAreSound }
    ensures beside { CallsAreSoundBeside }
{}

/// Where the law of a block fits a well-formed specification, the start of the module is met, and the kid's program refines the kid's
/// specification, the block refines the specification, by an abstract table.
pub fn blocks()
    ensures sound { BlocksAreSound }
    ensures kids { BlockKidsAreReady }
{}

/// Where the law of a call of an operation fits a well-formed specification, the operation is met, and the obligations are valid, the
/// call refines the specification, by an abstract table.
pub fn operations()
    ensures { OperationsAreSound }
{}

/// Bodies that are the specifications that they are to meet, meet them; and by such bodies calls and starts end in states that fit.
pub fn head_tables()
    ensures procedures { HeadsMeet }
    ensures operations { OperationsMeet }
    ensures starts { StartsMeet }
    ensures calls_keep { CallsKeep }
    ensures operations_keep { OperationsKeep }
    ensures starts_keep { StartsKeep }
{}

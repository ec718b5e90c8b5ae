// What follows from the set-up calls, on a function that does nothing: its contract is the law.
ghost use Rattle.bench.specs.Laws.{SetUpBusesAreFresh};

// A new bench chip stands for a fresh bus, and its set-up calls keep it fresh.
pub fn a_chip_that_is_set_up_is_fresh()
    ensures { SetUpBusesAreFresh }
{}

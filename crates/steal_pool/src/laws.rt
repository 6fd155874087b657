//! Laws of stealing. The functions do nothing: each clause holds for all events and all states.

ghost use Rattle.steal_pool.specs.Deque.{KeepsEach};
ghost use Rattle.steal_pool.specs.StealMachine.{LosesNone};

/// The law of the machine over every list of events, and what the rule of one deque says between any two steps.
pub fn steal_laws()
    ensures machine { LosesNone }
    ensures deque { KeepsEach }
{}

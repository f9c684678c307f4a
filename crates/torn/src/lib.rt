#![tactic(auto)]

// Request 10: stores that a power cut tears. What recovery promises for every choice of the words that had reached the medium.
// Each function has no body: its contract is the promise.
ghost use Rattle.torn.specs.Bench.{TornBenchRecovers};
ghost use Rattle.torn.specs.Choices.{TornWords};
ghost use Rattle.torn.specs.Torn.{TornRecovery};

// Demand 3, also where the cut tears the data flights and where cuts fall inside recovery steps.
pub fn torn_recovery_is_right()
    ensures { TornRecovery }
{}

// The choices of words leave exactly the images that differ from the one saved in words of data flights; a step, or a call of a bench, that is cut inside leaves each word as
// before it or as behind it.
pub fn words_are_torn()
    ensures { TornWords }
{}

// Demand 3 of the calls that a bench makes, where cuts tear.
pub fn torn_bench_recovers()
    ensures { TornBenchRecovers }
{}

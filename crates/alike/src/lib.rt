#![tactic(auto)]

// Request 14: recovery from either form of an image. Each function has no body: its contract is the promise.
ghost use Rattle.alike.specs.Alike.{HeadedRecovery};
ghost use Rattle.alike.specs.Bench.{HeadedBenchRecovers};

// Demand 3 over the new image and the new step, also where cuts tear stores; after every act place, lines and answer are those of the old image's recovery.
pub fn headed_recovery_is_right()
    ensures { HeadedRecovery }
{}

// The same of the calls that a bench makes.
pub fn headed_bench_recovers()
    ensures { HeadedBenchRecovers }
{}

//! What holds of every replay. Each law is the contract of a function with an empty body.

ghost use Rattle.std.specs.Prelude.{◌≡◌, List};
ghost use Rattle.spec_calculus.specs.Syntax.{Protocol};
ghost use Rattle.spec_calculus.specs.Runs.{Step};
ghost use Rattle.run_replay.specs.Replay.{Replay, IsReplayOf};

/// Replaying steps shows one thing: either no step is refused, and the end and each query's first violation
/// are determined, or one step is the first that is refused, for one cause.
pub fn one_replay()
    ensures { (P : Protocol) (steps : List Step) (a b : Replay) → IsReplayOf P steps a →
        IsReplayOf P steps b → a ≡ b }
{}

//! What a run leaves, and what a second one finds.
ghost use Rattle.session_model.specs.Runs.{TwoRuns, AnyMoment, SecondAnswers};

/// A check of what a run and a power cut have left finds nothing. A volume over it is in the tree after the first of the
/// accepted changes, all acknowledged ones among them.
pub fn two_runs()
    ensures { TwoRuns }
{}

/// At any moment a power cut leaves the tree after some first changes.
pub fn any_moment()
    ensures { AnyMoment }
{}

/// Whoever looks in a second session, after a first one and a power cut, sees what was acknowledged.
pub fn second_answers()
    ensures { SecondAnswers }
{}

//! Worked examples of surveys, as theorems: each clause is one, and there is nothing to run.

ghost use Rattle.survey_model.specs.Examples.{SmallSurveys};

/// What the runs of a few seeds of two leaves come to.
pub fn small_surveys()
    ensures { SmallSurveys }
{}

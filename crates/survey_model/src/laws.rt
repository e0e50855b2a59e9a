//! What holds of every survey, as theorems: each clause is one, and there is nothing to run.

ghost use Rattle.survey_model.specs.Laws.{SurveyedEndsAreLegal, SurveysAreRight};

/// A survey has exactly the ends that its seeds gave, each in one line with how many seeds gave it and the smallest of them, the most
/// frequent first.
pub fn surveys_are_right()
    ensures { SurveysAreRight }
{}

/// Each end of a survey is that of a legal run of the flat machine from the start.
pub fn surveyed_ends_are_legal()
    ensures { SurveyedEndsAreLegal }
{}

//! Worked examples of tests, as theorems: each clause is one, and there is nothing to run.

ghost use Rattle.litmus_model.specs.declared.refusal.Fault.TheVariants.{OpenComment, OtherArchitecture};
ghost use Rattle.litmus_model.specs.declared.refusal.Fault.TheVariants.{SixtyFourBits, NoLabel, Twice, BadCondition};
ghost use Rattle.litmus_model.specs.Examples.{Says, IsRefused, ExampleImage, message_passing_text, message_passing};
ghost use Rattle.litmus_model.specs.Examples.{waiting_text, waiting, conditions_text, conditions, open_comment};
ghost use Rattle.litmus_model.specs.Examples.{other_architecture, wide_load, no_label, given_twice, open_bracket};
ghost use Rattle.litmus_model.specs.StatesExamples.{ExampleStates};

/// What the texts of small tests say.
pub fn small_tests()
    ensures message_passing { Says message_passing_text message_passing }

    // Comments, types, values below 0, labels, and what an assembler makes of its own instructions.
    ensures waiting { Says waiting_text waiting }
    ensures conditions { Says conditions_text conditions }
{}

/// Texts that are refused, each for what is in one line.
pub fn refused_texts()
    ensures open_comment { IsRefused open_comment 2 OpenComment }
    ensures other_architecture { IsRefused other_architecture 2 OtherArchitecture }
    ensures wide_load { IsRefused wide_load 4 SixtyFourBits }
    ensures no_label { IsRefused no_label 5 NoLabel }
    ensures given_twice { IsRefused given_twice 3 Twice }

    // The line of the text's end.
    ensures open_bracket { IsRefused open_bracket 5 BadCondition }
{}

/// The image of a small test, byte for byte.
pub fn example_image()
    ensures { ExampleImage }
{}

/// What is printed of the states to which runs of small tests came, byte for byte.
pub fn example_states()
    ensures { ExampleStates }
{}

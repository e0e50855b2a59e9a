//! What holds of every table that is put together, as theorems: each clause is one, and there is nothing to run.

ghost use Rattle.join_model.specs.JoinLaws.{JoinedTablesAreRight, OneTable, RangesThatFollow};
ghost use Rattle.join_model.specs.OutcomeTexts.{JoinedOutcomes, OutcomesAreTexts};
ghost use Rattle.join_model.specs.TextLaws.{JoinedRanges, JoinedTexts, PrintedTables, ReadTablesAreCounted};

/// Tables put together are the table of all their runs.
pub fn joined_tables_are_right()
    ensures { JoinedTablesAreRight }
{}

/// Runs in which no seed gave two outcomes have one table.
pub fn a_table_is_one()
    ensures { OneTable }
{}

/// The tables of ranges of seeds that follow one another, put together, are the table of the whole range, byte for byte.
pub fn ranges_that_follow_are_one()
    ensures { RangesThatFollow }
{}

/// The text of a table is read back as that table.
pub fn printed_tables_are_read()
    ensures { PrintedTables }
{}

/// Each run of a table that is read is in one of its lines.
pub fn read_tables_are_counted()
    ensures { ReadTablesAreCounted }
{}

/// The texts of tables of runs in which no seed gave two outcomes are together the text of the table of all these runs.
pub fn joined_texts_are_right()
    ensures { JoinedTexts }
{}

/// The texts of ranges of seeds that follow one another are together the text of the whole range, byte for byte.
pub fn joined_ranges_are_one()
    ensures { JoinedRanges }
{}

/// Every outcome of a machine is in one line, behind its seed.
pub fn outcomes_are_texts()
    ensures { OutcomesAreTexts }
{}

/// What calls for ranges of a machine's seeds print that follow one another is together, byte for byte, what one call prints.
pub fn joined_outcomes_are_one()
    ensures { JoinedOutcomes }
{}

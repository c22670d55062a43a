//! Laws of the plain machine. A function here computes nothing: its contract is the law.
ghost use Rattle.hg_machine.specs.Plain.Laws as laws;
ghost use Rattle.hg_machine.specs.Plain.Owed as owed;
ghost use Rattle.hg_machine.specs.Plain.Room as room;
ghost use Rattle.hg_machine.specs.Plain.Worked as worked;

/// Each turn leaves fewer turns, so turns come to an end.
pub fn turns_end()
    ensures { laws.TurnsEnd }
{}

/// In every state of a run, whoever is active or waits is open and wants rows, and nobody waits while
/// more may be active.
pub fn runs_are_steady()
    ensures beginning { laws.BeginningIsSteady }
    ensures lines { laws.LinesKeepSteady }
{}

/// And each step of a line by itself keeps that: its beginning, each turn and its closing; over devices
/// that do not tell as well.
pub fn steps_keep_steady()
    ensures exact { laws.ExactStepsKeepSteady }
    ensures loose { laws.LooseStepsKeepSteady }
    ensures loose_lines { laws.LooseLinesKeepSteady }
{}

/// A command at work can always finish, and no device need fail for that; so what a run says that stops in
/// the midst of a line is a front of what a whole run says. Both hold over devices that do not tell as well.
pub fn commands_can_finish()
    ensures finish { laws.CanAlwaysFinish }
    ensures fronts { laws.StoppedRunsAreFronts }
    ensures finish_loosely { laws.CanAlwaysFinishLoosely }
    ensures loose_fronts { laws.LooseStoppedRunsAreFronts }
{}

/// Between two lines of a run no command is at work, and every open cursor has a name.
pub fn lines_end_at_rest()
    ensures { laws.LinesEndAtRest }
{}

/// A line whose needs fit the two files never says that one of them is full.
pub fn fitting_lines_never_fill()
    ensures { laws.FittingLinesNeverFill }
{}

/// A line raises the counts of pages taken and of pages left behind by no more than it needs at most, and
/// past no limit.
pub fn lines_raise_at_most_their_need()
    ensures { laws.LinesRaiseAtMostTheirNeed }
{}

/// No turn ends with the limit error where the ceiling is at least the floor of the cursor at the front.
pub fn floors_prevent_the_limit()
    ensures { laws.FloorsPreventTheLimit }
{}

/// Over devices that do not tell, the machine's own runs are among those that may come.
pub fn runs_are_loose_runs()
    ensures { laws.RunsAreLooseRuns }
{}

/// Worked scripts: the reply lines that were worked out by hand are those of runs.
pub fn worked_scripts()
    ensures waiting { worked.TheSecondWaits }
    ensures opened { worked.CursorsStayAsOpened }
    ensures rows { worked.RowsComeBack }
{}

/// What a step prints fits a reply: a working row, and SHOW MEMORY with sixteen cursors.
pub fn rows_and_memory_fit_a_reply()
    ensures rows { room.WorkingRowsPrintShort }
    ensures memory { room.MemoryFits }
{}

/// And so does each turn, a row with the line behind it too.
pub fn turns_fit_a_reply()
    ensures { room.TurnsFit }
{}

/// A turn takes from what is left to its cursor just what it gives, and nothing from the others.
pub fn turns_take_what_they_give()
    ensures { owed.TurnsTakeWhatTheyGive }
{}

/// The rows that a cursor gives in its turns are an answer of what was left to it: with any answer of what is
/// left behind them, they are one of what was left before; and where its end was said, they are one by
/// themselves.
pub fn turns_give_answers()
    ensures turns { owed.TurnsGiveAnswers }
    ensures ended { owed.EndedTurnsGiveAnswers }
{}

//! Whole runs: from the component as it lies at the start to the bytes that are written.
ghost use Rattle.std.specs.Prelude.{[], true, codes};
ghost use Rattle.plain_evaluation.specs.Rows.{side};
ghost use Rattle.run_meaning.specs.Ending.{EndsWithPage};
ghost use Rattle.run_meaning.specs.Run.{IsRun, phases_of};
ghost use Rattle.run_rows.specs.Whole.{side_script, side_journal, side_answers};

/// The script has no phase: the page is that of the start.
pub fn run_of_no_phase()
    ensures { (run : IsRun side [] [] []) × EndsWithPage side (phases_of run.steps) run.last true (codes "<i>1</i><b>end</b>") }
{}

/// An area is disposed twice, and its signal is set: the report, and the page without the area.
pub fn run_of_one_phase()
    ensures { (run : IsRun side side_script side_journal side_answers) × EndsWithPage side (phases_of run.steps) run.last true (codes "1.1.1 dispose now 1 before 0\n1.1.2 dispose now 0 before 1\n1.1.3 disposed 1\njournal 1.1 disposed 1\ncleanup \"bye\"\n<b>end</b>") }
{}

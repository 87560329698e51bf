//! How the report of a run depends on its script. Each law is the contract of a function that does nothing.

ghost use Rattle.std.specs.Prelude.{◌≡◌, ◌<◌, ℕ, true, length, sum, List, Option, None};
ghost use Rattle.lfm_model.specs.declared.refusals.Refusal.{Refusal};
ghost use Rattle.lfm_text.specs.Text.{max_lines};
ghost use Rattle.lfm_model.specs.Journals.{Within};
ghost use Rattle.lfm_model.specs.declared.journals.Entry.{Entry};
ghost use Rattle.lfm_model.specs.declared.objects.TotalOp.{TotalOp};
ghost use Rattle.lfm_script.specs.Adds.{lines_adds};
ghost use Rattle.lfm_script.specs.script.Grammar.{Plan, plan_allowed};
ghost use Rattle.lfm_script.specs.Rows.{rows_from};
ghost use Rattle.lfm_script.specs.Report.{report_text, run_text, script_text, total_of, IsRunOf};
ghost use Rattle.lfm_script.specs.Runs.{made_row, made_total, IsReport, IsRunOfMade};

/// If each worker's entries add what its own lines add, the report is a function of the script, whatever the order of the
/// entries of different workers.
pub fn reports_are_of_scripts()
    ensures total { (p : Plan) (journal : List (Entry TotalOp)) → plan_allowed p ≡ true → length p.lines < max_lines →
        Within p.workers journal → IsRunOf p journal → total_of journal ≡ sum (lines_adds p.lines) }
    ensures text { (p : Plan) (journal : List (Entry TotalOp)) → plan_allowed p ≡ true → length p.lines < max_lines →
        Within p.workers journal → IsRunOf p journal →
        run_text p.workers journal (λ w. None) (total_of journal) true ≡ script_text p }
{}

/// If each worker's entries add what its first commands add, the report is that of these commands. If no worker was refused, it
/// is the script's own report.
pub fn reports_are_of_commands()
    ensures made { (p : Plan) (made : ℕ → ℕ) (refused : ℕ → Option Refusal) (journal : List (Entry TotalOp)) →
        plan_allowed p ≡ true → length p.lines < max_lines → Within p.workers journal → IsRunOfMade p made journal →
        run_text p.workers journal refused (total_of journal) true ≡
        report_text (rows_from (made_row p made refused) 1 p.workers) (made_total p made) true }
    ensures whole { (p : Plan) (text : List ℕ) → plan_allowed p ≡ true → IsReport p text true → text ≡ script_text p }
{}

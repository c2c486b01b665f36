//! How reports are counted.
ghost use Rattle.std.specs.Prelude.{ℕ, ◌+◌, List, ◌++◌};
ghost use Rattle.receiver_core.specs.declared.report.Report.{Report};
ghost use Rattle.scripts_heard.specs.AllGood.{AllGood};

/// Does nothing; its contract is a law. Where so many reports are good and none is bad, and so many behind them and none
/// is bad, all of them together have as many good ones as both, and none is bad.
pub fn good_reports_add_up()
    ensures { (reports later : List Report) (count more : ℕ) → AllGood reports count → AllGood later more → AllGood (reports ++ later) (count + more) }
{}

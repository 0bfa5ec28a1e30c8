//! What holds of the parts of each script. The function does nothing: its contract is a theorem.

ghost use Rattle.script_reader.specs.FewThreads.{PartsHaveFewThreads};

/// A part has at most eight threads; more are a fault.
pub fn parts_have_few_threads()
    ensures { PartsHaveFewThreads }
{}

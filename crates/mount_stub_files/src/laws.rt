//! What the files show and take, in examples. The function does nothing: its contract is a theorem.

ghost use Rattle.mount_stub_files.specs.ToolExamples.{TextExamples, WriteExamples};

/// After worked requests the files show these texts, and writes to them come to this.
pub fn examples_are_computed()
    ensures texts { TextExamples }
    ensures writes { WriteExamples }
{}

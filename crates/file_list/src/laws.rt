//! What the table of files comes to. The function does nothing: its contract is what is proved.

ghost use Rattle.file_list.specs.ListExamples.{AWholeList, InnerFolders, NamesOfTools, OwnFolders};

/// The definitions can be computed, and they give a worked tracer this list, folders these files, to be used so, and files these names.
pub fn examples_are_computed()
    ensures list { AWholeList }
    ensures own { OwnFolders }
    ensures inner { InnerFolders }
    ensures names { NamesOfTools }
{}

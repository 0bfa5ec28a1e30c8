//! What the numbers, entries and paths of nodes come to, and what requests do to a scene. Each function does nothing: its contract is a theorem.

ghost use Rattle.mount_tree.specs.FileLaws.{FilesAreOfTheTree};
ghost use Rattle.mount_tree.specs.TreeExamples.{ListsOfFolders, ListsWithDots, LookUps, NumbersAndPaths, SecondOfItsName};
ghost use Rattle.mount_tree.specs.TreeLaws.{ChildrenFollow, DeclaringAddsAnEvent, DotsComeFirst, EventsAreDeclared, FoundNodesAreIn, FoundNodesAreThere, ListsAreLookups, ListsHaveNamesOnce, MakingAddsAnInstance, NamesGoWithSerials, NodesAreFound, NumbersNameNodes, OthersLeaveTheScene, ParentsAreThere, PathsAreJoined, PathsNameTheirFiles, RemovedNodesAreGone, RemovingTakesItOut, ScenesAreSound, StepsUpEnd};
ghost use Rattle.mount_tree.specs.Walks.{TreesAreListed};

/// Two nodes of one number are the same, so a number names one node.
pub fn numbers_name_nodes()
    ensures { NumbersNameNodes }
{}

/// After the requests that were done, the instances are those of tracer_specification, each with the number of those that were made before it; the events
/// are those that were declared, but for those named as a file beside their folder.
pub fn scenes_are_of_their_pasts()
    ensures instances { NamesGoWithSerials }
    ensures events { EventsAreDeclared }
{}

/// What a request that is done does to a scene: what `add_instance`, `remove_instance` and `add_event` do, or nothing.
pub fn requests_change_scenes()
    ensures made { MakingAddsAnInstance }
    ensures removed { RemovingTakesItOut }
    ensures declared { DeclaringAddsAnEvent }
    ensures others { OthersLeaveTheScene }
{}

/// A node of an instance that was removed is never there again, whatever is made later.
pub fn removed_nodes_are_gone()
    ensures { RemovedNodesAreGone }
{}

/// What a look-up finds is there; and in a scene with names as a tracer has, all that is there is found by a look-up in the folder that it is in.
pub fn found_nodes_are_there()
    ensures there { FoundNodesAreThere }
    ensures found { NodesAreFound }
{}

/// The requests that a tracer did leave a scene in which all have names, and no two have one name or one number.
pub fn scenes_are_sound()
    ensures { ScenesAreSound }
{}

/// In a scene with names as a tracer has: a folder's list has each name once, and a look-up of a name finds what is listed under it.
pub fn lists_are_lookups()
    ensures { ListsAreLookups }
{}

/// The list of a folder that is there is `.`, itself, and `..`, the folder that it is in, and then what look-ups find; in a scene with names as a tracer
/// has, nothing else is called so.
pub fn lists_begin_with_dots()
    ensures first { DotsComeFirst }
    ensures rest { ChildrenFollow }
    ensures once { ListsHaveNamesOnce }
{}

/// `..` leads from what a look-up finds back to where it was found; it is there with what is in it; and five steps up from any folder are the mounted
/// one.
pub fn parents_lead_up()
    ensures back { FoundNodesAreIn }
    ensures there { ParentsAreThere }
    ensures ends { StepsUpEnd }
{}

/// The path of what a look-up finds is the folder's path and the name, and a slash if it is a folder.
pub fn paths_are_joined()
    ensures { PathsAreJoined }
{}

/// The path of a file that is there names, for a command, that file of that instance.
pub fn paths_name_their_files()
    ensures { PathsNameTheirFiles }
{}

/// And each file of the top instance that a path can name, of a CPU or an event that is there, is a file that is there, so that look-ups find it
/// (`found_nodes_are_there`).
pub fn files_are_of_the_tree()
    ensures { FilesAreOfTheTree }
{}

/// The definitions can be computed, and they give a worked scene these lists, look-ups, numbers and paths.
pub fn examples_are_computed()
    ensures requests { SecondOfItsName }
    ensures lists { ListsOfFolders }
    ensures dots { ListsWithDots }
    ensures found { LookUps }
    ensures numbers { NumbersAndPaths }
{}

/// A walk through all folders finds the files that `tracectl --list` lists, in its order, each to be used as it says; beside them only each event's
/// `inject` and the files that tools ask for.
pub fn trees_are_listed()
    ensures { TreesAreListed }
{}

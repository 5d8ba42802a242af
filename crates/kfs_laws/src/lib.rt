//! Laws of the file system's definitions. The functions do nothing: their contracts are the laws.
//!
//! What holds of the abstract machine of `kfs_model`, whatever carries it out: an error changes nothing, each call
//! leaves a tree with its open files and keeps the room, what a tree is charged changes by what goes and comes, and
//! where no cut and no fault is planned nothing fails but for want of memory.
//!
//! The invariant of the file calls is `IsWhole` (`specs/WholeCalls.antt`): what makes a tree and what makes a desk,
//! each open node is there, and each node is named or open. `each_call_leaves_a_tree_with_its_open_files` says that a
//! root alone with nothing open has it, and that each call keeps it.
//!
//! Begin with `specs/Laws.antt` and `specs/WholeCalls.antt`. `kfs_shows`, `kfs_core`, `kfs_posix` and `kfs_load` cite
//! the lemmas behind the laws, which stand in `proofs/`; `kfs_runner` cites `specs/Plain.antt`.
#![tactic(auto)]

ghost use Rattle.kfs_laws.specs.Laws.{ErrorsChangeNothing, NextRisesByOneAtMost, LookingLeavesTheTree, NoChangeLeavesTheTree, NamedIsATree, SweptIsATree, NewContentIsATree, NewNodeIsATree, UnnamingIsATree, RenameIsATree, NewNodeIsCharged, NewContentIsCharged, WhatGoesIsChargedNoMore, FitsIsTheMost, EachCallKeepsTheDesk};
ghost use Rattle.kfs_laws.specs.Plain.{NothingFailsUnplanned};
ghost use Rattle.kfs_laws.specs.WholeCalls.{EachCallLeavesATreeWithItsOpenFiles, RootAloneTakesThreeKeys, EachCallKeepsTheRoom};

/// An error changes nothing, and a reply that is an error says so.
pub fn errors_change_nothing()
    ensures { ErrorsChangeNothing }
{}

/// The next number never falls, and rises by one at most.
pub fn next_number_rises_by_one_at_most()
    ensures { NextRisesByOneAtMost }
{}

/// A call that looks, commits or works in spare time leaves the tree.
pub fn looking_leaves_the_tree()
    ensures { LookingLeavesTheTree }
{}

/// A call that is no change leaves the tree.
pub fn no_change_leaves_the_tree()
    ensures { NoChangeLeavesTheTree }
{}

/// Without its nameless nodes a tree is a tree, the same with those of them left out, and loses nothing more.
pub fn named_is_a_tree()
    ensures { NamedIsATree }
{}

/// Without the nodes that neither a place nor a description names a tree is a tree.
pub fn swept_is_a_tree()
    ensures { SweptIsATree }
{}

/// A file's new content, within the greatest length, leaves a tree.
pub fn new_content_is_a_tree()
    ensures { NewContentIsATree }
{}

/// A new node at a free place in a directory leaves a tree, under the next number.
pub fn new_node_is_a_tree()
    ensures { NewNodeIsATree }
{}

/// A place that nothing lies below, without its name, leaves a tree.
pub fn unnaming_is_a_tree()
    ensures { UnnamingIsATree }
{}

/// A place and all below it, moved to a free place in a directory, leave a tree.
pub fn rename_is_a_tree()
    ensures { RenameIsATree }
{}

/// A new node is charged 2 and its chunks.
pub fn new_node_is_charged()
    ensures { NewNodeIsCharged }
{}

/// A file's new content changes the charge by the difference of its chunks.
pub fn new_content_is_charged()
    ensures { NewContentIsCharged }
{}

/// Each node that goes takes 2 and its chunks off the charge, and names cost nothing.
pub fn what_goes_is_charged_no_more()
    ensures { WhatGoesIsChargedNoMore }
{}

/// The number of bytes that fit is the greatest number that does.
pub fn fits_is_the_most()
    ensures { FitsIsTheMost }
{}

/// A desk with nothing open is a desk, and each call leaves one.
pub fn each_call_keeps_the_desk()
    ensures { EachCallKeepsTheDesk }
{}

/// A root alone with nothing open is a tree with its open files, and each call leaves one, whatever it answers.
pub fn each_call_leaves_a_tree_with_its_open_files()
    ensures { EachCallLeavesATreeWithItsOpenFiles }
{}

/// A root alone has room exactly where there are three keys or more, and each call keeps the room, whatever it answers.
pub fn each_call_keeps_the_room()
    ensures root { RootAloneTakesThreeKeys }
    ensures calls { EachCallKeepsTheRoom }
{}

/// Where no cut and no fault is planned, and no line plans one, each call answers as it should, and each mount with
/// what is kept, or memory is wanting.
pub fn nothing_fails_unplanned()
    ensures { NothingFailsUnplanned }
{}

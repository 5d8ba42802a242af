//! What a mount refuses of the objects of a device, and what it takes: objects in which nothing is damaged show exactly
//! one tree. The functions do nothing: their contracts are laws.
//!
//! The consistency check of a mount, as a definition. `IsTreeDamage` (`specs/Damages.antt`) is the first kind of damage
//! that applies, in the order super, object, inode, entry, chunk, orphan, room, at the least place that has it.
//! `IsClear` says that none applies.
//!
//! There is no state. Main laws (`specs/Laws.antt`): at most one damage applies (`one_damage`), and where one does the
//! objects aren't clear (`damaged_is_not_clear`). What a device can hold is clear exactly where it stands for a tree
//! with room, `StandFor`: `clear_stands` and `standing_is_clear` are the two directions.
//!
//! Begin with the end of `specs/Damages.antt`, from `IsTreeDamage` back to what each kind says. `kfs_judge` decides it
//! over a device; `kfs_core`, `kfs_posix` and `kfs_runner` cite the laws for their mounts.
#![tactic(auto)]

ghost use Rattle.kfs_damages.specs.Laws.{OneDamage, DamagedIsNotClear, ClearStands, StandingIsClear};

/// At most one damage applies to objects.
pub fn one_damage()
    ensures { OneDamage }
{}

/// Where a damage applies, something is damaged.
pub fn damaged_is_not_clear()
    ensures { DamagedIsNotClear }
{}

/// Objects in which nothing is damaged show a tree that has room.
pub fn clear_stands()
    ensures { ClearStands }
{}

/// Nothing is damaged in objects that show a tree with room.
pub fn standing_is_clear()
    ensures { StandingIsClear }
{}

// Tables of nodes, from the rows of all objects.
ghost use Rattle.std.specs.Prelude.{[], IfOk, OnOk};
ghost use Rattle.kfs_judge.specs.Reaching.{AllReached, edges_in};
ghost use Rattle.kfs_judge.specs.Tables.{AreTables, Notes};

use crate::reaching::reach;
use crate::row::Row;
use kfs_objects::Inode;
use kv_base::Memory;
use std::alloc::Global;
use std::collections::{BTreeMap, BTreeSet};

/// What the objects say of nodes.
#[derive(Drop)]
pub struct Tables {
    /// The inodes, None where one doesn't read.
    pub inodes: BTreeMap<u64, Option<Inode>>,
    /// The nodes that have orphan objects.
    pub orphans: BTreeSet<u64>,
    /// The nodes that entries name, and those that two entries name. An entry that doesn't read counts
    /// as naming its parent.
    pub named: BTreeSet<u64>,
    pub twice: BTreeSet<u64>,
    /// The root, and the nodes that are reached from it.
    pub reached: BTreeSet<u64>,
}

impl Tables {
    /// Of no rows.
    fn new(alloc: Global) -> Tables
        ensures { AreTables [] result }
    {
        Tables {
            inodes: BTreeMap::new(alloc),
            orphans: BTreeSet::new(alloc),
            named: BTreeSet::new(alloc),
            twice: BTreeSet::new(alloc),
            reached: BTreeSet::new(alloc),
        }
    }

    /// Notes one more row.
    fn note(&mut self, row: &Row) -> Result<(), Memory>
        ensures { OnOk result (Notes self.old row.now self.new) }
    {
        match row {
            Row::Inode { node, inode } => {
                self.inodes.insert(*node, *inode)?;
            }
            Row::Orphan { node, .. } => {
                self.orphans.insert(*node)?;
            }
            Row::Entry { parent, child, .. } => {
                let node = child.unwrap_or(*parent);
                if !self.named.insert(node)? {
                    self.twice.insert(node)?;
                }
            }
            _ => {}
        }
        Ok(())
    }
}

/// The tables of these rows, but for what is reached.
fn noted(alloc: Global, rows: &[Row]) -> Result<Tables, Memory>
    ensures { IfOk result (AreTables rows.now) }
{
    let mut tables = Tables::new(alloc);
    for row in rows {
        tables.note(row)?;
    }
    Ok(tables)
}

/// The tables of these rows.
pub fn tables_of(alloc: Global, rows: &[Row]) -> Result<Tables, Memory>
    ensures tables { IfOk result (AreTables rows.now) }
    ensures reached { IfOk result (λ tables. AllReached (edges_in rows.now) tables.reached) }
{
    let mut tables = noted(alloc, rows)?;
    tables.reached = reach(alloc, rows)?;
    Ok(tables)
}

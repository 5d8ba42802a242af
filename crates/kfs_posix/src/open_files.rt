// The open files: descriptors, and the descriptions that they share.
ghost use Rattle.std.specs.Prelude.{ℕ, T, ◌≡◌, ◌≢◌, ◌<◌, ◌≤◌, ◌^◌, [], OnOk, IfOk, IsSome, OnSome, IfSome, None};
ghost use Rattle.std.specs.Ordering.{nat_cmp};
ghost use Rattle.std.specs.FinMap.{find, put, is_sorted};
ghost use Rattle.std.specs.Option.{option_map};
ghost use Rattle.kfs_model.specs.Desk.{lowest_free, free_from, is_open};
ghost use Rattle.kfs_posix.specs.Turning.{at_offset};
ghost use Rattle.kfs_posix.specs.Opens.{relengthed_file, unnamed};

use kfs_model::Description;
use kv_base::{Memory, Names, Text};
use slab::Slab;
use std::alloc::{AllocError, Global};
use std::marker::Model;

/// An open file description, with what is known of its node.
#[derive(Clone, Copy, Debug, PartialEq, Eq)]
pub struct OpenFile {
    pub it: Description,
    /// Whether the node is a file; else it is a directory.
    pub file: bool,
    /// The file's length in bytes; 0 for a directory.
    pub length: u64,
    /// Whether some place names the node.
    pub named: bool,
}

/// The 64 descriptors, each with the number of its description where it is open, and the descriptions.
#[derive(Drop)]
pub struct OpenFiles {
    descriptors: [Option<usize>; 64],
    files: Slab<OpenFile>,
}

impl Model for OpenFiles {
    ghost use Rattle.std.specs.Prelude.{◌≡◌, length};
    ghost use Rattle.kfs_posix.specs.Opens.{FilesState, files_code, state_of_files};

    ghost Value = { FilesState };

    ghost coded = { files_code };

    ghost view = { λ f. state_of_files f.descriptors f.files };

    ghost invariant = { λ f. length f.descriptors ≡ 64 };
}

impl OpenFiles {
    ghost use Rattle.std.specs.Prelude.{cond, filter, not, ◌==◌};
    ghost use Rattle.std.specs.List.{list_any};
    ghost use Rattle.kfs_posix.specs.Opens.{no_files, open_at, desk_of, with_descriptor, with_file, opened_as, closed, is_held, relengthed, moved_to, nodes_of, without_name};

    /// Nothing is open.
    pub fn new(alloc: Global) -> OpenFiles
        ensures { result.opens ≡ no_files }
    {
        OpenFiles {
            descriptors: [None; 64],
            files: Slab::new(alloc),
        }
    }

    /// The number of a descriptor's description, and that.
    pub fn get(&self, fd: u32) -> Option<(u64, OpenFile)>
        ensures open { result ≡ open_at self.now.opens fd }
        ensures low { OnSome result (fd < 64) }
    {
        let number = self.number(fd)?;
        let file = self.files.get(number)?;
        Some((number as u64, *file))
    }

    fn number(&self, fd: u32) -> Option<usize>
        ensures number { result ≡ find nat_cmp fd self.now.opens.descriptors }
        ensures low { OnSome result (fd < 64) }
    {
        let slot = self.descriptors.get(fd as usize)?;
        *slot
    }

    /// The lowest descriptor that isn't open.
    pub fn lowest_free(&self) -> Option<u32>
        ensures lowest { result ≡ lowest_free (desk_of self.now.opens) }
        ensures low { IfSome result (λ fd. fd < 64) }
    {
        self.free_below(64)
    }

    fn free_below(&self, limit: u32) -> Option<u32>
        ensures { result ≡ free_from (desk_of self.now.opens) 0 limit }
    {
        for fd in 0..limit {
            if self.number(fd).is_none() {
                return Some(fd);
            }
        }
        None
    }

    /// The descriptor shares a description.
    #[tactic(auto, using(crate::proofs::Slots::set_some))]
    pub fn share(&mut self, fd: u32, number: u64)
        requires { fd < 64 }
        ensures { self.new.opens ≡ with_descriptor self.old.opens fd number }
    {
        self.descriptors[fd as usize] = Some(number as usize);
    }

    /// The description becomes another.
    pub fn replace(&mut self, number: u64, file: OpenFile)
        requires { IsSome (find nat_cmp number self.old.opens.files) }
        ensures { self.new.opens ≡ with_file self.old.opens number file }
    {
        if let Some(old) = self.files.get_mut(number as usize) {
            *old = file;
        }
    }

    /// Makes room for a description.
    pub fn reserve(&mut self) -> Result<(), AllocError>
        ensures room { OnOk result (1 ≤ self.new.spare) }
        ensures same { self.new.opens ≡ self.old.opens }
    {
        self.files.reserve(1)
    }

    /// The descriptor gets a new description, and its number is answered.
    pub fn open(&mut self, fd: u32, file: OpenFile) -> u64
        requires fd { fd < 64 }
        requires room { 1 ≤ self.old.spare }
        ensures free { find nat_cmp result self.old.opens.files ≡ None }
        ensures opened { self.new.opens ≡ opened_as self.old.opens fd result file }
    {
        let number = self.files.insert_reserved(file);
        self.descriptors[fd as usize] = Some(number);
        number as u64
    }

    /// The descriptor is closed, and its description goes with the last one that has it.
    pub fn close(&mut self, fd: u32, number: u64)
        requires { fd < 64 }
        ensures { self.new.opens ≡ closed self.old.opens fd number }
    {
        self.descriptors[fd as usize] = None;
        if !self.is_held(number) {
            self.files.try_remove(number as usize);
        }
    }

    fn is_held(&self, number: u64) -> bool
        ensures { result ≡ is_held self.now.opens.descriptors number }
    {
        for slot in &self.descriptors {
            if *slot == Some(number as usize) {
                return true;
            }
        }
        false
    }

    /// Whether a description has the node.
    pub fn is_open(&self, node: u64) -> bool
        ensures { result ≡ is_open (desk_of self.now.opens) node }
    {
        for (_, file) in self.files.iter() {
            if file.it.node == node {
                return true;
            }
        }
        false
    }

    /// The nodes that are open, each in 8 bytes, the high byte first.
    pub fn open_nodes(&self, alloc: Global) -> Result<Names, Memory>
        ensures { IfOk result (λ nodes. nodes ≡ nodes_of self.now.opens) }
    {
        let mut nodes = Names::new(alloc);
        for (_, file) in self.files.iter() {
            let bytes = file.it.node.to_be_bytes();
            nodes.push(Text::new(alloc, bytes.as_slice())?)?;
        }
        Ok(nodes)
    }

    /// It is known of a node that no place names it.
    pub fn forget_name(&mut self, node: u64)
        ensures { self.new.opens ≡ without_name self.old.opens node }
    {
        for number in 0..self.most() {
            if let Some(file) = self.at(number) {
                self.replace(number, unnamed(file, node));
            }
        }
    }

    /// The description under a number.
    fn at(&self, number: u64) -> Option<OpenFile>
        ensures { result ≡ find nat_cmp number self.now.opens.files }
    {
        let file = self.files.get(number as usize)?;
        Some(*file)
    }

    /// The least number from which on there are no descriptions.
    fn most(&self) -> u64
        ensures beyond { (k : ℕ) → result ≤ k → find nat_cmp k self.now.opens.files ≡ None }
        ensures sorted { T (is_sorted nat_cmp self.now.opens.files) }
    {
        self.files.capacity() as u64
    }

    /// The description under a number has another offset.
    pub fn move_to(&mut self, number: u64, offset: u64)
        ensures { self.new.opens ≡ moved_to self.old.opens number offset }
    {
        if let Some(file) = self.at(number) {
            self.replace(number, at_offset(file, offset));
        }
    }

    /// A node has another length.
    pub fn set_length(&mut self, node: u64, length: u64)
        ensures { self.new.opens ≡ relengthed self.old.opens node length }
    {
        for number in 0..self.most() {
            self.set_length_at(number, node, length);
        }
    }

    fn set_length_at(&mut self, number: u64, node: u64, length: u64)
        ensures at { find nat_cmp number self.new.opens.files ≡ option_map (relengthed_file node length) (find nat_cmp number self.old.opens.files) }
        ensures others { (k : ℕ) → k ≢ number → find nat_cmp k self.new.opens.files ≡ find nat_cmp k self.old.opens.files }
        ensures descriptors { self.new.opens.descriptors ≡ self.old.opens.descriptors }
        ensures sorted { T (is_sorted nat_cmp self.old.opens.files) → T (is_sorted nat_cmp self.new.opens.files) }
    {
        if let Some(file) = self.at(number) {
            self.replace(number, with_length(file, node, length));
        }
    }
}

/// The same open file at another offset.
pub fn at_offset(file: OpenFile, offset: u64) -> OpenFile
    ensures { result ≡ at_offset file offset }
{
    OpenFile {
        it: Description {
            node: file.it.node,
            offset,
            read: file.it.read,
            write: file.it.write,
            append: file.it.append,
        },
        file: file.file,
        length: file.length,
        named: file.named,
    }
}

/// The same open file, where the node has another length.
fn with_length(file: OpenFile, node: u64, length: u64) -> OpenFile
    ensures { result ≡ relengthed_file node length file }
{
    if file.it.node != node {
        return file;
    }
    OpenFile {
        it: file.it,
        file: file.file,
        length,
        named: file.named,
    }
}

/// The same open file, whose node has no name where it is this one.
fn unnamed(file: OpenFile, node: u64) -> OpenFile
    ensures { result ≡ unnamed file node }
{
    OpenFile {
        it: file.it,
        file: file.file,
        length: file.length,
        named: file.named && file.it.node != node,
    }
}

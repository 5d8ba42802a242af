// A run over memory, and what it comes to.
use crate::fails::Fails;
use kfs_runner::{MemShelf, MemSink, MemSource, run_words, write_ending};
use kv_base::{Memory, Text};
use nand_mem::MemNand;
use std::alloc::Global;

// What the shelf holds before a run where a row says nothing of it: no image.
const HELD: &[u8] = b"old";

/// What a run comes to.
#[derive(Drop)]
pub struct Ended {
    pub status: u8,
    got: Text,
    shelf: MemShelf,
}

impl Ended {
    /// What the sink got.
    pub fn text(&self) -> &str {
        std::str::from_utf8(self.got.bytes()).unwrap_or("no text")
    }

    /// The bytes on the shelf.
    pub fn held(&self) -> &[u8] {
        self.shelf.bytes()
    }

    /// Whether the shelf holds an image that is read and written again as the same bytes.
    pub fn is_image_held(&self, alloc: Global) -> Result<bool, Memory> {
        match MemNand::from_image(alloc, self.held()) {
            Ok(nand) => Ok(nand.to_image(alloc)?.bytes() == self.held()),
            Err(_) => Ok(false),
        }
    }
}

/// The words of a run, what the shelf holds before it, and the room that it has.
#[derive(Drop)]
pub struct Setting {
    pub words: Vec<Text>,
    pub held: Text,
    pub shelf: usize,
    pub room: usize,
}

// The room for the answers where a row says nothing of it.
const ROOM: usize = 1_000_000;

// The room on the shelf, which is that for each image of 256 blocks.
const SHELF: usize = 34_086_924;

impl Setting {
    /// The words `run img`, and room for each image of 256 blocks.
    pub fn new(alloc: Global) -> Result<Setting, Memory> {
        let mut words = Vec::new(alloc);
        words.push(Text::new(alloc, b"run")?)?;
        words.push(Text::new(alloc, b"img")?)?;
        Ok(Setting {
            words,
            held: Text::new(alloc, HELD)?,
            shelf: SHELF,
            room: ROOM,
        })
    }

    /// Whether the words ask for the run of a script.
    pub fn is_run(&self) -> bool {
        matches!(self.words.first(), Some(word) if word.bytes() == b"run".as_slice())
    }

    /// Whether the shelf holds after a run what it held before it.
    pub fn is_shelf_left(&self, ended: &Ended) -> bool {
        ended.held() == self.held.bytes()
    }

    /// Runs a script with these words, while these calls fail.
    pub fn run(&self, alloc: Global, script: &str, fails: &Fails) -> Result<Ended, Memory> {
        let mut shelf = MemShelf::new(alloc, self.held.bytes(), self.shelf, fails.puts.as_slice())?;
        let mut source = MemSource::new(alloc, script.as_bytes(), fails.reads.as_slice())?;
        let mut sink = MemSink::new(alloc, self.room, fails.writes.as_slice())?;
        let ending = run_words(alloc, &self.words, &mut shelf, &mut source);
        let status = write_ending(&mut sink, &ending);
        Ok(Ended {
            status,
            got: Text::new(alloc, sink.bytes())?,
            shelf,
        })
    }
}

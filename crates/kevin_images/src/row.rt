// A row: an image, its changes, and the script that is done on it.
use crate::image::Image;
use crate::objects::with_object;
use kfs_runner::{MemShelf, MemSink, MemSource, run_words, write_ending};
use kv_base::{Memory, Text};
use nand_mem::MemNand;
use std::alloc::Global;
use std::rt::Files;
use std::{fs, io};

/// The room on the shelf for an image of 256 blocks.
const SHELF: usize = 34_086_924;

/// The room for the answers.
const ROOM: usize = 1_000_000;

/// What a mount is refused with that judges the flash, and so leaves its image as it is.
const FLASH_DAMAGES: [&str; 6] = [
    "refused noanchor",
    "refused damaged anchor ",
    "refused damaged run ",
    "refused damaged log ",
    "refused damaged value ",
    "refused damaged space ",
];

/// A row.
#[derive(Drop)]
pub struct Row {
    name: String,
    image: Option<Image>,
    script: String,
}

fn no_memory(_: Memory) -> io::Error {
    io::Error::from(io::ErrorKind::OutOfMemory)
}

// What a run comes to: its status, its answers, and what the shelf holds behind it.
#[derive(Drop)]
struct Ended {
    status: u8,
    answers: Text,
    file: Text,
}

// Runs a script over what the shelf holds.
fn run(alloc: Global, held: &[u8], script: &str) -> Result<Ended, Memory> {
    let mut words = Vec::new(alloc);
    words.push(Text::new(alloc, b"run")?)?;
    words.push(Text::new(alloc, b"img")?)?;
    let mut shelf = MemShelf::new(alloc, held, SHELF, &[])?;
    let mut source = MemSource::new(alloc, script.as_bytes(), &[])?;
    let mut sink = MemSink::new(alloc, ROOM, &[])?;
    let ending = run_words(alloc, &words, &mut shelf, &mut source);
    Ok(Ended {
        status: write_ending(&mut sink, &ending),
        answers: Text::new(alloc, sink.bytes())?,
        file: Text::new(alloc, shelf.bytes())?,
    })
}

// The first of the answers.
fn first_answer(answers: &Text) -> &str {
    let answers = std::str::from_utf8(answers.bytes()).unwrap_or("no text");
    answers.lines().next().unwrap_or("")
}

// Adds a line where a run that refused an image at first left another one, or one that is refused otherwise: a
// damage of the flash leaves the image as it is, and one of the objects leaves the objects.
fn tell_left(alloc: Global, held: &[u8], ended: &Ended, text: &mut Text) -> Result<(), Memory> {
    let refusal = first_answer(&ended.answers);
    if !refusal.starts_with("refused ") {
        return Ok(());
    }
    let is_of_flash = FLASH_DAMAGES
        .iter()
        .any(|damage| refusal.starts_with(*damage));
    if is_of_flash && ended.file.bytes() != held {
        text.append(b"the image is another\n")?;
    }
    let again = run(alloc, ended.file.bytes(), "@mount\n")?;
    if first_answer(&again.answers) != refusal {
        text.append(b"the next run answers otherwise\n")?;
    }
    Ok(())
}

impl Row {
    /// A row of this name without an image and a script.
    pub fn new(alloc: Global, name: &str) -> Result<Row, Memory> {
        Ok(Row {
            name: String::from_str(alloc, name)?,
            image: None,
            script: String::new(alloc),
        })
    }

    /// Takes a line of the input.
    pub fn add(&mut self, rt: &(impl Files + AllocGlobal), line: &str) -> io::Result<()> {
        let alloc = rt.alloc();
        if let Some(path) = line.strip_prefix("< ") {
            let spelling = fs::read_to_string(rt, path)?;
            let image = spelled(alloc, spelling.as_str()).map_err(no_memory)?;
            self.image = Some(image);
            return Ok(());
        }
        match line.split_at_checked(2) {
            Some((mark, change)) if matches!(mark, "! " | "+ " | "- ") => {
                let image = self.take_image(alloc).map_err(no_memory)?;
                let image = changed(alloc, image, mark, change).map_err(no_memory)?;
                self.image = Some(image);
                Ok(())
            }
            _ => {
                self.script.push_str(line)?;
                self.script.push('\n')?;
                Ok(())
            }
        }
    }

    // The image, which is that of the script where there is none yet.
    fn take_image(&mut self, alloc: Global) -> Result<Image, Memory> {
        match self.image.take() {
            Some(image) => Ok(image),
            None => {
                let ended = run(alloc, b"", self.script.as_str())?;
                self.script.clear();
                Image::read(alloc, ended.file.bytes())
            }
        }
    }

    /// What the row comes to.
    pub fn outcome(self, alloc: Global) -> Result<Text, Memory> {
        let name = &self.name;
        let head = format!(in alloc; "-- {name}\n")?;
        let mut text = Text::new(alloc, head.as_bytes())?;
        let Some(image) = &self.image else {
            text.append(b"no image\n")?;
            return Ok(text);
        };
        let file = image.file(alloc)?;
        let ended = run(alloc, file.as_slice(), self.script.as_str())?;
        if ended.status != 0 {
            let status = ended.status;
            let line = format!(in alloc; "= {status}\n")?;
            text.append(line.as_bytes())?;
        }
        text.append(ended.answers.bytes())?;
        tell_left(alloc, file.as_slice(), &ended, &mut text)?;
        Ok(text)
    }
}

// The image that lines spell.
fn spelled(alloc: Global, lines: &str) -> Result<Image, Memory> {
    let mut image = Image::erased(alloc)?;
    for line in lines.lines() {
        image.change(alloc, line)?;
    }
    Ok(image)
}

// An image with a page or an object changed.
fn changed(alloc: Global, image: Image, mark: &str, change: &str) -> Result<Image, Memory> {
    let mut image = image;
    if mark == "! " {
        image.change(alloc, change)?;
        return Ok(image);
    }
    let Ok(nand) = MemNand::from_image(alloc, image.file(alloc)?.as_slice()) else {
        return Ok(image);
    };
    match with_object(alloc, nand, change) {
        Some(nand) => Image::read(alloc, nand.to_image(alloc)?.bytes()),
        None => Ok(image),
    }
}

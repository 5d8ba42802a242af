// An image by its pages.
use kv_base::Memory;
use std::alloc::Global;

// What a page is.
#[derive(Drop)]
enum Page {
    Erased,
    Cut,
    Whole(Vec<u8>),
}

/// The bytes of a page, spare bytes counted.
const PAGE_BYTES: usize = 4_160;

/// The pages of a device of 256 blocks.
const PAGES: usize = 8_192;

/// The mark of an image's file, its version, and 256 blocks.
const HEADER: &[u8] = b"KEVINSSD\x00\x01\x01\x00";

/// The image of a device of 256 blocks.
#[derive(Drop)]
pub struct Image {
    pages: Vec<Page>,
}

impl Page {
    fn copy(&self, alloc: Global) -> Result<Page, Memory> {
        Ok(match self {
            Page::Erased => Page::Erased,
            Page::Cut => Page::Cut,
            Page::Whole(bytes) => Page::Whole(Vec::from_slice(alloc, bytes.as_slice())?),
        })
    }
}

// The page at the front of a file's bytes, and those behind it.
fn first_page(alloc: Global, bytes: &[u8]) -> Result<Option<(Page, &[u8])>, Memory> {
    let Some((state, rest)) = bytes.split_first() else {
        return Ok(None);
    };
    Ok(match *state {
        0 => Some((Page::Erased, rest)),
        1 => match rest.split_at_checked(PAGE_BYTES) {
            Some((page, rest)) => Some((Page::Whole(Vec::from_slice(alloc, page)?), rest)),
            None => None,
        },
        _ => Some((Page::Cut, rest)),
    })
}

impl Image {
    /// An image whose pages are all erased.
    pub fn erased(alloc: Global) -> Result<Image, Memory> {
        let mut pages = Vec::new(alloc);
        for _ in 0..PAGES {
            pages.push(Page::Erased)?;
        }
        Ok(Image { pages })
    }

    /// The image of a file, up to a page that isn't there.
    pub fn read(alloc: Global, file: &[u8]) -> Result<Image, Memory> {
        let mut pages = Vec::new(alloc);
        let mut rest = file.get(HEADER.len()..).unwrap_or(b"");
        for _ in 0..PAGES {
            let Some((page, behind)) = first_page(alloc, rest)? else {
                break;
            };
            pages.push(page)?;
            rest = behind;
        }
        Ok(Image { pages })
    }

    /// The bytes of its file.
    pub fn file(&self, alloc: Global) -> Result<Vec<u8>, Memory> {
        let mut file = Vec::from_slice(alloc, HEADER)?;
        for page in self.pages.iter() {
            match page {
                Page::Erased => file.push(0)?,
                Page::Cut => file.push(2)?,
                Page::Whole(bytes) => {
                    file.push(1)?;
                    file.extend_from_slice(bytes.as_slice())?;
                }
            }
        }
        Ok(file)
    }

    /// Changes a page as a line says. A line that says nothing of a page changes nothing.
    pub fn change(&mut self, alloc: Global, line: &str) -> Result<(), Memory> {
        let Some((place, what)) = line.split_once('=') else {
            return Ok(());
        };
        match place.split_once('+') {
            Some((page, from)) => {
                let from = from.parse().unwrap_or(PAGE_BYTES);
                self.write(alloc, page.parse().unwrap_or(PAGES), from, what)
            }
            None => self.set(alloc, place.parse().unwrap_or(PAGES), what),
        }
    }

    // Makes a page cut, erased, or as another is.
    fn set(&mut self, alloc: Global, page: usize, what: &str) -> Result<(), Memory> {
        let new = match what {
            "cut" => Page::Cut,
            "erased" => Page::Erased,
            _ => match self.pages.get(what.parse().unwrap_or(PAGES)) {
                Some(other) => other.copy(alloc)?,
                None => return Ok(()),
            },
        };
        if let Some(page) = self.pages.get_mut(page) {
            *page = new;
        }
        Ok(())
    }

    // Writes bytes into a page, which is whole then.
    fn write(
        &mut self,
        alloc: Global,
        page: usize,
        from: usize,
        digits: &str,
    ) -> Result<(), Memory> {
        let Some(page) = self.pages.get_mut(page) else {
            return Ok(());
        };
        let Ok(given) = hex::decode(alloc, digits) else {
            return Ok(());
        };
        if !matches!(page, Page::Whole(_)) {
            *page = Page::Whole(vec![in alloc; 0u8; PAGE_BYTES]?);
        }
        if let Page::Whole(bytes) = page {
            for (byte, given) in bytes.iter_mut().skip(from).zip(given.iter()) {
                *byte = *given;
            }
        }
        Ok(())
    }
}

//! The text of answers.

ghost use Rattle.std.specs.Prelude.{◌≡◌, ◌++◌, ◌∷◌, [], ◌<◌, length, codes, OnOk, OnErr};
ghost use Rattle.std.specs.List.{flat_map};
ghost use Rattle.kfs_script.specs.AnswerText.{newline, hex_digit, esc_byte, esc, and_number, and_name, below, path_text, item_text, errno_text, cause_text, reply_text, damaged, damage_text, text_of};

use crate::escape::is_plain;
use kfs_model::Answer;
use kfs_path::{Cause, Errno, Memory, Names, Reply, Text, TreeItem, TreeList};
use kv_base::Damage;
use std::alloc::Global;

fn hex_digit(digit: u8) -> u8
    requires { digit < 16 }
    ensures { result ≡ hex_digit digit }
{
    if digit < 10 {
        digit + b'0'
    } else {
        digit - 10 + b'A'
    }
}

fn escape_byte(out: &mut Text, byte: u8) -> Result<(), Memory>
    ensures { OnOk result (out.new ≡ out.old ++ esc_byte byte) }
{
    if is_plain(byte) {
        return out.push(byte);
    }
    out.append(&[b'%', hex_digit(byte / 16), hex_digit(byte % 16)])
}

/// Writes bytes: as they are where they stand for themselves, else as `%` and two digits.
fn escape(out: &mut Text, bytes: &[u8]) -> Result<(), Memory>
    ensures { OnOk result (out.new ≡ out.old ++ esc bytes.now) }
{
    for byte in bytes {
        escape_byte(out, *byte)?;
    }
    Ok(())
}

/// Adds a space and a number; unchanged for want of memory.
pub fn write_number(alloc: Global, out: &mut Text, number: u64) -> Result<(), Memory>
    ensures ok { OnOk result (out.new ≡ out.old ++ and_number number) }
    ensures err { OnErr result (out.new ≡ out.old) }
{
    let digits = format!(in alloc; " {number}")?;
    out.append(digits.as_bytes())
}

fn and_names(out: &mut Text, names: &Names) -> Result<(), Memory>
    ensures { OnOk result (out.new ≡ out.old ++ flat_map and_name names.now) }
{
    for name in names.items() {
        out.push(b' ')?;
        escape(out, name.bytes())?;
    }
    Ok(())
}

fn names_below(out: &mut Text, names: &Names) -> Result<(), Memory>
    ensures { OnOk result (out.new ≡ out.old ++ flat_map below names.now) }
{
    for piece in names.items() {
        out.push(b'/')?;
        escape(out, piece.bytes())?;
    }
    Ok(())
}

fn path(out: &mut Text, names: &Names) -> Result<(), Memory>
    ensures { OnOk result (out.new ≡ out.old ++ path_text names.now) }
{
    if names.len() == 0 {
        out.push(b'/')
    } else {
        names_below(out, names)
    }
}

fn item(alloc: Global, out: &mut Text, item: &TreeItem) -> Result<(), Memory>
    ensures { OnOk result (out.new ≡ out.old ++ item_text item.now) }
{
    if item.file {
        out.append(b"f ")?;
        path(out, &item.path)?;
        write_number(alloc, out, item.length)?;
    } else {
        out.append(b"d ")?;
        path(out, &item.path)?;
    }
    out.push(b'\n')?;
    Ok(())
}

fn items(alloc: Global, out: &mut Text, list: &TreeList) -> Result<(), Memory>
    ensures { OnOk result (out.new ≡ out.old ++ flat_map item_text list.now) }
{
    for next in list.items() {
        item(alloc, out, next)?;
    }
    Ok(())
}

fn errno_text(errno: Errno) -> &'static [u8]
    ensures { result.now ≡ errno_text errno }
{
    match errno {
        Errno::ENOENT => b"ENOENT",
        Errno::ENAMETOOLONG => b"ENAMETOOLONG",
        Errno::ENOTDIR => b"ENOTDIR",
        Errno::EINVAL => b"EINVAL",
        Errno::EEXIST => b"EEXIST",
        Errno::EISDIR => b"EISDIR",
        Errno::EMFILE => b"EMFILE",
        Errno::ENOSPC => b"ENOSPC",
        Errno::EBADF => b"EBADF",
        Errno::EFBIG => b"EFBIG",
        Errno::EOVERFLOW => b"EOVERFLOW",
        Errno::ENOTEMPTY => b"ENOTEMPTY",
        Errno::EBUSY => b"EBUSY",
        Errno::EPERM => b"EPERM",
    }
}

fn cause_text(cause: Cause) -> &'static [u8]
    ensures { result.now ≡ cause_text cause }
{
    match cause {
        Cause::Cut => b"cut",
        Cause::Eio => b"eio",
        Cause::NoMem => b"nomem",
    }
}

#[tactic(auto, unfolding(crate::specs::AnswerText::damaged))]
fn damage(alloc: Global, out: &mut Text, kind: &[u8], place: u64) -> Result<(), Memory>
    ensures { OnOk result (out.new ≡ out.old ++ damaged kind.now place) }
{
    out.append(b"damaged ")?;
    out.append(kind)?;
    write_number(alloc, out, place)?;
    Ok(())
}

fn damage_text(alloc: Global, out: &mut Text, found: Damage) -> Result<(), Memory>
    ensures { OnOk result (out.new ≡ out.old ++ damage_text found) }
{
    match found {
        Damage::NoAnchor => out.append(b"noanchor"),
        Damage::Anchor(page) => damage(alloc, out, b"anchor", u64::from(page)),
        Damage::Run(page) => damage(alloc, out, b"run", u64::from(page)),
        Damage::Log(page) => damage(alloc, out, b"log", u64::from(page)),
        Damage::Value(page) => damage(alloc, out, b"value", u64::from(page)),
        Damage::Space(limit) => damage(alloc, out, b"space", u64::from(limit)),
        Damage::Super(place) => damage(alloc, out, b"super", place),
        Damage::Object(place) => damage(alloc, out, b"object", place),
        Damage::Inode(node) => damage(alloc, out, b"inode", node),
        Damage::Entry(node) => damage(alloc, out, b"entry", node),
        Damage::Chunk(node) => damage(alloc, out, b"chunk", node),
        Damage::Orphan(node) => damage(alloc, out, b"orphan", node),
        Damage::Room(charge) => damage(alloc, out, b"room", charge),
    }
}

/// Writes a word, the numbers behind it and a newline.
fn numbers(alloc: Global, out: &mut Text, word: &[u8], numbers: &[u64]) -> Result<(), Memory>
    ensures { OnOk result (out.new ≡ out.old ++ word.now ++ flat_map and_number numbers.now ++ newline) }
{
    out.append(word)?;
    for number in numbers {
        write_number(alloc, out, *number)?;
    }
    out.push(b'\n')?;
    Ok(())
}

/// Writes a word, what stands behind it and a newline.
fn words(out: &mut Text, word: &[u8], more: &[u8]) -> Result<(), Memory>
    ensures { OnOk result (out.new ≡ out.old ++ word.now ++ more.now ++ newline) }
{
    out.append(word)?;
    out.append(more)?;
    out.push(b'\n')?;
    Ok(())
}

fn bytes(out: &mut Text, bytes: &[u8]) -> Result<(), Memory>
    ensures { OnOk result (out.new ≡ out.old ++ codes "ok t:" ++ esc bytes.now ++ newline) }
{
    out.append(b"ok t:")?;
    escape(out, bytes)?;
    out.push(b'\n')?;
    Ok(())
}

fn names(out: &mut Text, names: &Names) -> Result<(), Memory>
    ensures { OnOk result (out.new ≡ out.old ++ codes "ok" ++ flat_map and_name names.now ++ newline) }
{
    out.append(b"ok")?;
    and_names(out, names)?;
    out.push(b'\n')?;
    Ok(())
}

fn tree(alloc: Global, out: &mut Text, list: &TreeList) -> Result<(), Memory>
    ensures { OnOk result (out.new ≡ out.old ++ codes "tree" ++ and_number (length list.now) ++ newline ++ flat_map item_text list.now) }
{
    numbers(alloc, out, b"tree", &[list.items().len() as u64])?;
    items(alloc, out, list)?;
    Ok(())
}

fn reply_text(alloc: Global, out: &mut Text, reply: &Reply) -> Result<(), Memory>
    ensures { OnOk result (out.new ≡ out.old ++ reply_text reply.now) }
{
    match reply {
        Reply::Done => words(out, b"ok", b""),
        Reply::Number(number) => numbers(alloc, out, b"ok", &[*number]),
        Reply::Read(text) => bytes(out, text.bytes()),
        Reply::Dir { node } => numbers(alloc, out, b"ok dir", &[*node]),
        Reply::File { node, length } => numbers(alloc, out, b"ok file", &[*node, *length]),
        Reply::Names(list) => names(out, list),
        Reply::Room {
            charge,
            keys,
            chunks,
            pages,
        } => numbers(alloc, out, b"room", &[*charge, *keys, *chunks, *pages]),
        Reply::Tree(list) => tree(alloc, out, list),
        Reply::Err(errno) => words(out, b"err ", errno_text(*errno)),
        Reply::Down(cause) => words(out, b"down ", cause_text(*cause)),
        Reply::Off => words(out, b"off", b""),
    }
}

fn refused(alloc: Global, out: &mut Text, found: Damage) -> Result<(), Memory>
    ensures { OnOk result (out.new ≡ out.old ++ codes "refused " ++ damage_text found ++ newline) }
{
    out.append(b"refused ")?;
    damage_text(alloc, out, found)?;
    out.push(b'\n')?;
    Ok(())
}

fn answer_text(alloc: Global, out: &mut Text, answer: &Answer) -> Result<(), Memory>
    ensures { OnOk result (out.new ≡ out.old ++ text_of answer.now) }
{
    match answer {
        Answer::Reply(reply) => reply_text(alloc, out, reply),
        Answer::Mounted(number) => numbers(alloc, out, b"mounted", &[*number]),
        Answer::Refused(found) => refused(alloc, out, *found),
    }
}

/// Adds the text of an answer; it ends with a newline. Unchanged for want of memory.
pub fn write_answer(alloc: Global, out: &mut Text, answer: &Answer) -> Result<(), Memory>
    ensures ok { OnOk result (out.new ≡ out.old ++ text_of answer.now) }
    ensures err { OnErr result (out.new ≡ out.old) }
{
    let mut text = Text::new(alloc, &[])?;
    answer_text(alloc, &mut text, answer)?;
    out.append(text.bytes())
}

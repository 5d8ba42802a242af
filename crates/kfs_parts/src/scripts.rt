// Texts of scripts that no row spells, and answers that no script gives.
ghost use Rattle.std.specs.Prelude.{◌≤◌, length};

use kfs_model::{Answer, Line};
use kfs_path::{Call, Cause, Reply};
use kfs_script::{ScriptFault, read_script, write_answer};
use kv_base::{Damage, Memory, Text};
use std::alloc::Global;
use std::test::Fail;

// The number of the first line outside the grammar; 0 where there is none.
fn refused_line(alloc: Global, script: &[u8]) -> Option<u32>
    requires { length script.now ≤ 16777216 }
{
    match read_script(alloc, script) {
        Ok(_) => Some(0),
        Err(ScriptFault::BadLine(number)) => Some(number),
        Err(ScriptFault::Memory) => None,
    }
}

const BLANKS: [(&str, u32); 9] = [
    ("\n\n\nsync", 0),
    ("sync\n \n", 2),
    ("sync\r\n", 1),
    ("\r\n", 1),
    ("sync ", 1),
    ("mkdir  ", 1),
    ("mkdir /a ", 1),
    ("mkdir\t/a", 1),
    ("@format 256 ", 1),
];

#[test]
fn blanks_stand_between_words_alone(rt: HostRuntime) {
    for (script, number) in BLANKS {
        if script.len() < 100 {
            let refused = refused_line(rt.alloc(), script.as_bytes());
            assert_eq!(&rt; refused, Some(number), "{script:?}");
        }
    }
}

#[test]
fn a_path_is_written_in_printed_characters(rt: HostRuntime) {
    for script in [
        "sync\0",
        "mkdir /a\t",
        "mkdir /\u{7f}",
        "mkdir /\u{e9}",
        "mkdir /\u{1f}",
    ] {
        if script.len() < 100 {
            let refused = refused_line(rt.alloc(), script.as_bytes());
            assert_eq!(&rt; refused, Some(1), "{script:?}");
        }
    }
}

#[test]
fn a_line_has_the_words_as_its_parts(rt: HostRuntime) -> Result<(), Fail> {
    let text = b"@format 300\n# a\nmkdir /a%20b\n@cut 7 mix\n@fail erase 9\n@mount";
    let script = read_script(rt.alloc(), text)?;
    assert_eq!(&rt; script.len(), 5);
    assert!(&rt; matches!(script.get(0), Some(Line::Format(300))));
    assert!(&rt;
        matches!(script.get(1), Some(Line::Call(Call::Mkdir { path })) if path.bytes() == b"/a b".as_slice())
    );
    assert!(&rt; matches!(script.get(2), Some(Line::Cut { n: 7, how: 2 })));
    assert!(&rt;
        matches!(
            script.lines(),
            [_, _, _, Line::Fail { kind: 2, n: 9 }, Line::Mount]
        )
    );
    assert!(&rt; script.get(5).is_none());
    Ok(())
}

fn writes(alloc: Global, answer: Answer, text: &str) -> Result<bool, Memory> {
    let mut out = Text::new(alloc, b"> ")?;
    write_answer(alloc, &mut out, &answer)?;
    Ok(out.bytes().strip_prefix(b"> ".as_slice()) == Some(text.as_bytes()))
}

#[test]
fn refusals_of_an_image_have_their_texts(rt: HostRuntime) -> Result<(), Fail> {
    for (damage, text) in [
        (Damage::NoAnchor, "refused noanchor\n"),
        (Damage::Log(65535), "refused damaged log 65535\n"),
        (Damage::Room(9), "refused damaged room 9\n"),
    ] {
        assert!(&rt;
            writes(rt.alloc(), Answer::Refused(damage), text)?,
            "{text}"
        );
    }
    Ok(())
}

#[test]
fn replies_that_no_script_gives_have_their_texts(rt: HostRuntime) -> Result<(), Fail> {
    let down = Reply::Down(Cause::NoMem);
    assert!(&rt; writes(rt.alloc(), Answer::Reply(down), "down nomem\n")?);
    let room = Reply::Room {
        charge: 1487,
        keys: 4032,
        chunks: 0,
        pages: 18_446_744_073_709_551_615,
    };
    let text = "room 1487 4032 0 18446744073709551615\n";
    assert!(&rt; writes(rt.alloc(), Answer::Reply(room), text)?);
    Ok(())
}

//! What is written for a reply.
ghost use Rattle.std.specs.Prelude.{◌≡◌, ◌+◌, ◌*◌, ◌≤◌, ◌++◌, codes, decimal, flat_map, length, OnOk, OnErr, vec_len, vec_capacity};
ghost use Rattle.std.specs.String.{string_bytes};
ghost use Rattle.hex.specs.Hex.{encode_lower};
ghost use Rattle.wire_num.specs.Numbers.{bytes_of};
ghost use Rattle.script_text.specs.Appending.{Appends};
ghost use Rattle.script_text.specs.Texts.{flags_text, mode_text, part_text, parts_text, refusal_text, row_text, text_behind_data, text_of, what_text};

use std::alloc::AllocError;
use wire_num::put_u16;
use world_model::bytes::{Bytes, Rows};
use world_model::types::{Content, Mode, Refusal, Reply, What};

// What stands in front of the data of a needle.
const FOUND: &[u8; 3] = b"OK ";

/// Appends the text of a reply with its line feed. Where memory is wanting `out` is unchanged.
#[tactic(auto, unfolding(crate::specs::Texts::text_of))]
pub fn print_reply(reply: &Reply, out: &mut Vec<u8>) -> Result<(), AllocError>
    ensures ok { OnOk result (out.new.items ≡ out.old.items ++ text_of reply.now) }
    ensures err { OnErr result (out.new.items ≡ out.old.items) }
{
    let mut text = String::new(*out.allocator());
    write_reply(reply, &mut text)?;
    text.push('\n')?;
    match reply {
        Reply::Found(content) => push_found(content.bytes.as_slice(), text.as_bytes(), out),
        _ => out.extend_from_slice(text.as_bytes()),
    }
}

// Appends the digits of the data, and this text behind them. All memory is taken first.
fn push_found(data: &[u8], behind: &[u8], out: &mut Vec<u8>) -> Result<(), AllocError>
    ensures ok { OnOk result (out.new.items
        ≡ out.old.items ++ (codes "OK " ++ (encode_lower «data».now ++ behind.now))) }
    ensures err { OnErr result (out.new.items ≡ out.old.items) }
{
    let Some(room) = (2 * data.len()).checked_add(FOUND.len() + behind.len()) else {
        return Err(AllocError);
    };
    out.reserve(room)?;
    push_bytes(FOUND, out);
    push_digits(data, out);
    push_bytes(behind, out);
    Ok(())
}

// Appends bytes that have room.
fn push_bytes(bytes: &[u8], out: &mut Vec<u8>)
    requires { vec_len out.old + length bytes.now ≤ vec_capacity out.old }
    ensures { Appends out.old out.new (length bytes.now) bytes.now }
{
    let _ = out.extend_from_slice(bytes);
}

// Appends digits that have room.
fn push_digits(bytes: &[u8], out: &mut Vec<u8>)
    requires { vec_len out.old + 2 * length bytes.now ≤ vec_capacity out.old }
    ensures { Appends out.old out.new (2 * length bytes.now) (encode_lower bytes.now) }
{
    let start = out.len();
    let _ = out.resize(start + 2 * bytes.len(), 0);
    let _ = hex::encode_to_slice(bytes, &mut out[start..]);
}

// All of a reply but the data of a needle, with which its text begins.
fn write_reply(reply: &Reply, text: &mut String) -> Result<(), AllocError>
    ensures { OnOk result (string_bytes text.new ≡ string_bytes text.old ++ text_behind_data reply.now) }
{
    match reply {
        Reply::Done => text.push_str("OK"),
        Reply::Found(content) => write_parts(content, text),
        Reply::Listed(rows) => {
            text.push_str("OK")?;
            write_rows(rows, text)
        }
        Reply::Started { job } => write!(text, "OK job {job}"),
        Reply::Running { job } => write!(text, "OK job {job} running"),
        Reply::Ended { job } => write!(text, "OK job {job} done"),
        Reply::Long => text.push_str("ERR 18 long"),
        Reply::Syntax => text.push_str("ERR 1 syntax"),
        Reply::Refused(why) => {
            text.push_str("ERR ")?;
            write_refusal(why, text)
        }
    }
}

// The number and the word of a refusal, and its values.
fn write_refusal(why: &Refusal, text: &mut String) -> Result<(), AllocError>
    ensures { OnOk result (string_bytes text.new ≡ string_bytes text.old ++ refusal_text why.now) }
{
    match why {
        Refusal::NoJob => text.push_str("17 no job"),
        Refusal::NoServer => text.push_str("4 no server"),
        Refusal::NoVolume => text.push_str("2 no volume"),
        Refusal::Exists => text.push_str("3 exists"),
        Refusal::Lost => text.push_str("10 lost"),
        Refusal::Busy { job } => write!(text, "11 busy {job}"),
        Refusal::Coded => text.push_str("8 coded"),
        Refusal::Plain => text.push_str("9 plain"),
        Refusal::ReadOnly => text.push_str("7 read only"),
        Refusal::Empty => text.push_str("13 empty"),
        Refusal::TooLarge => text.push_str("14 too large"),
        Refusal::Full => text.push_str("12 full"),
        Refusal::Fault { server } => write!(text, "15 fault {server}"),
        Refusal::Damaged { what, a, b } => {
            let what = what_word(*what);
            write!(text, "16 damaged {what} {a} {b}")
        }
        Refusal::NotFound => text.push_str("5 not found"),
        Refusal::Cookie => text.push_str("6 cookie"),
    }
}

fn what_word(what: What) -> &'static str
    ensures { result.now ≡ what_text what }
{
    match what {
        What::End => "end",
        What::Id => "id",
        What::Size => "size",
        What::Body => "body",
        What::Checksum => "checksum",
        What::Empty => "empty",
        What::Large => "large",
    }
}

fn mode_word(mode: Mode) -> &'static str
    ensures { result.now ≡ mode_text mode }
{
    match mode {
        Mode::Plain => "plain",
        Mode::Sealed => "sealed",
        Mode::Coded => "coded",
        Mode::Lost => "lost",
    }
}

// A volume, its mode and the bytes that it uses, for each row.
fn write_rows(rows: &Rows, text: &mut String) -> Result<(), AllocError>
    ensures { OnOk result (string_bytes text.new ≡ string_bytes text.old ++ flat_map row_text rows.now) }
{
    for (volume, mode, used) in rows.as_slice() {
        let mode = mode_word(*mode);
        write!(text, " {volume} {mode} {used}")?;
    }
    Ok(())
}

// The parts of a needle that stand, but the data.
fn write_parts(content: &Content, text: &mut String) -> Result<(), AllocError>
    ensures { OnOk result (string_bytes text.new ≡ string_bytes text.old ++ parts_text content.now) }
{
    write_flags(content.flags, text)?;
    write_bytes("name=", &content.name, text)?;
    write_bytes("mime=", &content.mime, text)?;
    write_modified(content.modified, text)?;
    write_ttl(content.ttl, text)?;
    write_bytes("pairs=", &content.pairs, text)
}

// The flags, where any stands.
fn write_flags(flags: u8, text: &mut String) -> Result<(), AllocError>
    ensures { OnOk result (string_bytes text.new ≡ string_bytes text.old ++ flags_text flags) }
{
    if flags == 0 {
        return Ok(());
    }
    text.push_str(" flags=")?;
    write_hex(&[flags], text)
}

// The bytes behind their key, where they stand.
fn write_bytes(key: &str, part: &Option<Bytes>, text: &mut String) -> Result<(), AllocError>
    ensures { OnOk result (string_bytes text.new
        ≡ string_bytes text.old ++ part_text key.now encode_lower part.now) }
{
    let Some(bytes) = part else {
        return Ok(());
    };
    text.push(' ')?;
    text.push_str(key)?;
    write_hex(bytes.as_slice(), text)
}

// The time of the last change in seconds, where it stands.
fn write_modified(part: Option<u64>, text: &mut String) -> Result<(), AllocError>
    ensures { OnOk result (string_bytes text.new
        ≡ string_bytes text.old ++ part_text (codes "modified=") decimal part) }
{
    let Some(modified) = part else {
        return Ok(());
    };
    write!(text, " modified={modified}")
}

// The time to live as it stands in a record, where it stands.
fn write_ttl(part: Option<u16>, text: &mut String) -> Result<(), AllocError>
    ensures { OnOk result (string_bytes text.new
        ≡ string_bytes text.old ++ part_text (codes "ttl=") (λ n. encode_lower (bytes_of 2 n)) part) }
{
    let Some(ttl) = part else {
        return Ok(());
    };
    let mut bytes = [0; 2];
    put_u16(&mut bytes, 0, ttl);
    text.push_str(" ttl=")?;
    write_hex(&bytes, text)
}

// The bytes in lower-case hexadecimal digits.
fn write_hex(bytes: &[u8], text: &mut String) -> Result<(), AllocError>
    ensures { OnOk result (string_bytes text.new ≡ string_bytes text.old ++ encode_lower bytes.now) }
{
    let digits = hex::encode(*text.allocator(), bytes)?;
    text.push_str(digits.as_str())
}

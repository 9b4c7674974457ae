//! The texts of replies.
ghost use Rattle.std.specs.Prelude.{◌≡◌, ◌∷◌, [], ◌+◌, ◌%◌, ◌/◌, ◌≤◌, ◌<◌, ◌++◌, nat_le, length, drop, IsTrue};
ghost use Rattle.std.specs.List.{flat_map, list_all};
ghost use Rattle.tree_types.specs.declared.reply.Reply.TheVariants as reply;
ghost use Rattle.history_model.specs.Numbers.{hex_digit};
ghost use Rattle.history_model.specs.ReplyText.{refusal_word, after_space, type_word, rights_text, info_text, hex_text, read_text, names_text, text_of_reply, reply_text_of};
ghost use Rattle.script_text.specs.ShortReplies.{is_short};
ghost use Rattle.script_text.specs.Output.{Puts};

use crate::output::{Output, ShortText};
use itoa::{Buffer, Integer};
use lufs_base::Name;
use tree_types::{NameList, Refusal, Reply, StatInfo};

/// Puts a number.
pub(crate) fn put_number<O: Output, I: Integer>(out: &mut O, number: I)
    ensures put { Puts (I.text number) (O.told out.old) (O.told out.new) }
    ensures short { length (I.text number) ≤ I.MAX_STR_LEN }
{
    let mut buffer = Buffer::new();
    out.put(buffer.format(number).as_bytes());
}

/// Puts a space and a word.
pub(crate) fn put_word<O: Output>(out: &mut O, word: &[u8])
    ensures { Puts (after_space word.now) (O.told out.old) (O.told out.new) }
{
    out.put(b" ");
    out.put(word);
}

/// Puts a space and a number.
pub(crate) fn put_spaced<O: Output, I: Integer>(out: &mut O, number: I)
    ensures put { Puts (32 ∷ I.text number) (O.told out.old) (O.told out.new) }
    ensures short { length (32 ∷ I.text number) ≤ I.MAX_STR_LEN + 1 }
{
    out.put(b" ");
    put_number(out, number);
}

fn refusal_word(why: Refusal) -> &'static [u8]
    ensures { result.now ≡ refusal_word why }
{
    match why {
        Refusal::Syntax => b"syntax",
        Refusal::Locked => b"locked",
        Refusal::Noent => b"noent",
        Refusal::Notdir => b"notdir",
        Refusal::Loop => b"loop",
        Refusal::Denied => b"denied",
        Refusal::Exist => b"exist",
        Refusal::Isdir => b"isdir",
        Refusal::Notempty => b"notempty",
        Refusal::Inval => b"inval",
        Refusal::Nametoolong => b"nametoolong",
        Refusal::Mlink => b"mlink",
        Refusal::Fbig => b"fbig",
        Refusal::Noinodes => b"noinodes",
        Refusal::Nospace => b"nospace",
        Refusal::Fault => b"fault",
        Refusal::Nomem => b"nomem",
    }
}

fn type_word(mode: u16) -> &'static [u8]
    ensures { result.now ≡ type_word mode }
{
    if 0o040_000 <= mode && mode <= 0o040_777 {
        b"dir"
    } else if 0o120_000 <= mode && mode <= 0o120_777 {
        b"link"
    } else {
        b"file"
    }
}

fn octal_digit(number: u16) -> u8
    ensures { result ≡ 48 + number % 8 }
{
    b'0' + (number % 8) as u8
}

fn put_type<O: Output>(out: &mut O, mode: u16)
    ensures { Puts (after_space (type_word mode)) (O.told out.old) (O.told out.new) }
{
    put_word(out, type_word(mode));
}

fn put_rights<O: Output>(out: &mut O, mode: u16)
    ensures { Puts (after_space (rights_text mode)) (O.told out.old) (O.told out.new) }
{
    put_word(
        out,
        &[
            octal_digit(mode / 64),
            octal_digit(mode / 8),
            octal_digit(mode),
        ],
    );
}

fn put_info<O: Output>(out: &mut O, info: &StatInfo)
    ensures put { Puts (info_text info.now) (O.told out.old) (O.told out.new) }
    ensures short { length (info_text info.now) ≤ 101 }
{
    put_spaced(out, info.ino);
    put_type(out, info.mode);
    put_rights(out, info.mode);
    put_spaced(out, info.links);
    put_spaced(out, info.uid);
    put_spaced(out, info.gid);
    put_spaced(out, info.size);
    put_spaced(out, info.mtime);
    put_spaced(out, info.blocks);
}

fn hex_digit(number: u8) -> u8
    requires { number < 16 }
    ensures { result ≡ hex_digit number }
{
    if number < 10 {
        48 + number
    } else {
        87 + number
    }
}

fn put_hex<O: Output>(out: &mut O, bytes: &[u8])
    ensures { Puts (hex_text bytes.now) (O.told out.old) (O.told out.new) }
{
    for b in bytes {
        out.put(&[hex_digit(*b / 16), hex_digit(*b % 16)]);
    }
}

fn put_read<O: Output>(out: &mut O, bytes: &[u8])
    ensures { Puts (read_text bytes.now) (O.told out.old) (O.told out.new) }
{
    if bytes.is_empty() {
        out.put(b"-");
    } else {
        put_hex(out, bytes);
    }
}

fn put_each_name<O: Output>(out: &mut O, names: &[Name])
    ensures { Puts (flat_map after_space names.now) (O.told out.old) (O.told out.new) }
{
    for name in names {
        put_word(out, name.as_slice());
    }
}

fn put_names<O: Output>(out: &mut O, names: &NameList, more: bool)
    ensures put { Puts (names_text names.now more) (O.told out.old) (O.told out.new) }
    ensures short { IsTrue (is_short (reply.Names names.now more)) → length (names_text names.now more) ≤ 4122 }
{
    put_spaced(out, names.len());
    put_word(out, if more { b"more" } else { b"end" });
    put_each_name(out, names.as_slice());
}

/// Puts the text of a reply, without the number of its line.
#[tactic(auto, unfolding(history_model::specs::ReplyText::text_of_reply))]
pub(crate) fn put_reply<O: Output>(out: &mut O, reply: &Reply)
    ensures put { Puts (text_of_reply reply.now) (O.told out.old) (O.told out.new) }
    ensures short { IsTrue (is_short reply.now) → length (text_of_reply reply.now) ≤ 8195 }
{
    match reply {
        Reply::Done => out.put(b"ok"),
        Reply::Stat(info) => {
            out.put(b"ok");
            put_info(out, info);
        },
        Reply::Read(bytes) => {
            out.put(b"ok ");
            put_read(out, bytes.as_slice());
        },
        Reply::Names(names, more) => {
            out.put(b"ok");
            put_names(out, names, *more);
        },
        Reply::Text(text) => {
            out.put(b"ok ");
            out.put(text.as_slice());
        },
        Reply::Df(blocks, inodes) => {
            out.put(b"ok");
            put_spaced(out, *blocks);
            put_spaced(out, *inodes);
        },
        Reply::Refused(why) => out.put(refusal_word(*why)),
    }
}

#[tactic(auto, unfolding(history_model::specs::ReplyText::reply_text_of))]
fn put_reply_line<O: Output>(out: &mut O, line: u32, reply: &Reply)
    ensures put { Puts (reply_text_of line reply.now) (O.told out.old) (O.told out.new) }
    ensures short { IsTrue (is_short reply.now) → length (reply_text_of line reply.now) ≤ 8207 }
{
    put_number(out, line);
    out.put(b" ");
    put_reply(out, reply);
    out.put(b"\n");
}

// Writes these bytes at the front.
fn copy_to_front(out: &mut [u8], bytes: &[u8])
    requires { length bytes.now ≤ length out.old }
    ensures { out.new ≡ bytes.now ++ drop (length bytes.now) out.old }
{
    out[..bytes.len()].copy_from_slice(bytes);
}

fn are_short_names(names: &[Name]) -> bool
    ensures { result ≡ list_all (λ name. nat_le (length name) 255) names.now }
{
    names.iter().all(|name| name.as_slice().len() <= 255)
}

/// Whether a reply gives no more than a call may tell: 4,096 bytes of a file, 16 names of 255 bytes, a text of 1,024
/// bytes.
pub fn is_short(reply: &Reply) -> bool
    ensures { result ≡ is_short reply.now }
{
    match reply {
        Reply::Read(bytes) => bytes.len() <= 4096,
        Reply::Names(names, _) => names.len() <= 16 && are_short_names(names.as_slice()),
        Reply::Text(text) => text.len() <= 1024,
        Reply::Done | Reply::Stat(_) | Reply::Df(..) | Reply::Refused(_) => true,
    }
}

/// Writes the line of a reply (`docs/SCRIPTS.md`, "Replies") at the front of `out`, which has at least 8,256 bytes, and
/// answers its length in bytes. The bytes after it stay. The reply is a short one (`is_short`).
pub fn reply_text(line: u32, reply: &Reply, out: &mut [u8]) -> usize
    requires short { IsTrue (is_short reply.now) }
    requires room { 8256 ≤ length out.old }
    ensures length { result ≡ length (reply_text_of line reply.now) }
    ensures text { out.new ≡ reply_text_of line reply.now ++ drop (length (reply_text_of line reply.now)) out.old }
{
    let mut text = ShortText::new();
    put_reply_line(&mut text, line, reply);
    let bytes = text.as_slice();
    copy_to_front(out, bytes);
    bytes.len()
}

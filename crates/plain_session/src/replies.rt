//! Replies put into a sink.
ghost use Rattle.std.specs.Prelude.{IsTrue};
ghost use Rattle.history_model.specs.ReplyText.{reply_text_of};
ghost use Rattle.script_text.specs.ShortReplies.{is_short};
ghost use Rattle.host_io.specs.Outside.{Puts};

use host_io::{Sink, SinkFault};
use script_text::reply_text;
use tree_types::Reply;

/// The most bytes of a reply's line.
const LONGEST_REPLY: usize = 8256;

/// Puts the reply to the line of this number.
pub(crate) fn put_reply<K: Sink>(sink: &mut K, line: u32, reply: &Reply) -> Result<(), SinkFault>
    requires { IsTrue (is_short reply.now) }
    ensures { Puts (reply_text_of line reply.now) result (K.told sink.old) (K.told sink.new) }
{
    let mut out = [0; LONGEST_REPLY];
    let length = reply_text(line, reply, &mut out);
    sink.put(&out[..length])
}

//! Replies of a session, written.

ghost use Rattle.std.specs.Prelude.{◌≡◌, is_some};
ghost use Rattle.ground_io.specs.Causes.{HasCause};
ghost use Rattle.ground_io.specs.Order.{SendsText};
ghost use Rattle.ground_io.specs.Streams.{WritesText};
ghost use Rattle.ground_num.specs.Head.{IsOrigin};
ghost use Rattle.landxml_write.specs.Text.{document};
ghost use Rattle.line_protocol.specs.Replies.{HasVolumeWithin};
ghost use Rattle.store.specs.Shown.{shown_by};
ghost use Rattle.session.specs.Texts.{document_of, held_text};
ghost use Rattle.session.specs.Told.{export_front};

use crate::session::Session;
use ground_io::{Failed, Sink};
use ground_num::Origin;
use landxml_write::write_surface;
use line_protocol::{Reply, put_reply};

/// The origin of the coordinates.
pub(crate) fn origin(session: &Session) -> &Origin
    ensures value { result.now ≡ session.now.journal.head.origin }
    ensures small { IsOrigin result.now }
{
    &session.version().head().origin
}

// Whether a document follows the reply.
fn is_export(reply: &Reply) -> bool
    ensures { result ≡ is_some (export_front reply.now) }
{
    matches!(reply, Reply::Export(_, _))
}

// Writes what follows the reply's text: of an export the document of the held version.
fn put_document<S: Sink>(session: &Session, reply: &Reply, sink: &mut S) -> Result<(), Failed>
    ensures text { WritesText (S.written sink.old) (S.written sink.new) result (document_of (λ _. document (shown_by session.now.journal)) (export_front reply.now)) }
    ensures order { SendsText (S.write_order sink.old) (S.write_order sink.new) result (document_of (λ _. document (shown_by session.now.journal)) (export_front reply.now)) }
    ensures cause { HasCause (S.write_faults sink.old) (S.write_faults sink.new) result }
    ensures rest { S.beside_writes sink.new ≡ S.beside_writes sink.old }
{
    if is_export(reply) {
        write_surface(session.version(), sink)
    } else {
        Ok(())
    }
}

/// Writes a reply of the session, with its coordinates in the document's system: one write for each
/// reply, but a contour of many lines in pieces of at most 512 bytes. Of an export the document of
/// the held version follows, by writes of nearly 8 KiB. After `Failed` a beginning of this was
/// written. Takes no memory.
pub fn put_answer<S: Sink>(session: &Session, reply: &Reply, sink: &mut S) -> Result<(), Failed>
    requires volume { HasVolumeWithin reply.now }
    ensures text { WritesText (S.written sink.old) (S.written sink.new) result (held_text session.now.journal reply.now) }
    ensures order { SendsText (S.write_order sink.old) (S.write_order sink.new) result (held_text session.now.journal reply.now) }
    ensures cause { HasCause (S.write_faults sink.old) (S.write_faults sink.new) result }
    ensures rest { S.beside_writes sink.new ≡ S.beside_writes sink.old }
{
    put_reply(reply, origin(session), sink)?;
    put_document(session, reply, sink)
}

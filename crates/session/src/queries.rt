//! The replies to what is measured on a version.

ghost use Rattle.std.specs.Prelude.{◌≡◌, ◌⊎◌, length};
ghost use Rattle.ground_model.specs.Contour.{contour_at};
ghost use Rattle.ground_model.specs.History.{content_of};
ghost use Rattle.ground_model.specs.Slope.{relief};
ghost use Rattle.ground_model.specs.Volume.{volume_over};
ghost use Rattle.line_protocol.specs.Replies.{HasVolumeWithin};
ghost use Rattle.line_protocol.specs.declared.reply.Reply.TheVariants.{Contour, Volume, Memory};

use contours::contour;
use ground_model::Level;
use line_protocol::Reply;
use measures::volume;
use std::alloc::{AllocError, Global};
use store::Version;

/// The contour of a version, or that there was no memory for it.
pub(crate) fn contour_reply(alloc: Global, version: &Version, level: Level) -> Reply
    ensures is { (result ≡ Contour (length version.now.journal.entries) (contour_at (relief (content_of version.now.journal.entries)) level)) ⊎ (result ≡ Memory) }
    ensures volume { HasVolumeWithin result }
{
    match contour(alloc, version, level) {
        Ok(cuts) => Reply::Contour(version.front(), cuts),
        Err(AllocError) => Reply::Memory,
    }
}

/// The volume of a version over a datum.
pub(crate) fn volume_reply(version: &Version, datum: Level) -> Reply
    ensures is { result ≡ Volume (length version.now.journal.entries) (volume_over (relief (content_of version.now.journal.entries)) datum) }
    ensures volume { HasVolumeWithin result }
{
    Reply::Volume(version.front(), volume(version, datum))
}

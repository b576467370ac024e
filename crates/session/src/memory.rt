//! The words of a session that stand for a position.
ghost use Rattle.session.specs.InUse.{SoundAt};
ghost use Rattle.session.specs.Props.{sound_at_prop};

use crate::layout::{Extent, Layout};

/// The words of a session that stand for a position: where each word stands, and how much is in use.
// Words with numbers of how many are in use, and no Vec: a session has the words that it was lent, and nothing is allocated.
pub(crate) struct Memory<'a> {
    pub words: &'a mut [i32],
    pub layout: Layout,
    pub extent: Extent,
    ghost sound: { SoundAt layout extent words.now } by { sound_at_prop layout extent words.now },
}

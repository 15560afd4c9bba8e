// A reader that holds the image and the place it has reached.
ghost use Rattle.std.specs.Prelude.{◌≡◌, ◌+◌, ◌<◌, ◌^◌};
ghost use Rattle.rules.specs.Image.{trailer_at};
ghost use Rattle.image_reader.specs.Clauses.{behind_of, NumberRead};

use crate::bytes::half_at;
use crate::word_at;

// What the trailer takes of the image's end.
const TRAILER_BYTES: usize = 12;

// An image and the place that is read next, which stays at the largest number that a place can be.
#[derive(Clone, Copy)]
pub struct Reader<'a> {
    pub image: &'a [u8],
    pub at: usize,
}

// The trailer's place, or the front of an image that is too short for one. Its bound leaves room to move on.
pub(crate) fn trailer_place(image: &[u8]) -> usize
    ensures { (result ≡ trailer_at image.now) × (result + 12 < 2 ^ 64) }
{
    image.len().saturating_sub(TRAILER_BYTES)
}

impl<'a> Reader<'a> {
    // The number in the 4 bytes at the reader's place, which moves behind them.
    pub(crate) fn word(&mut self) -> usize
        ensures number { NumberRead 4 self.old.image.now self.old.at result }
        ensures image { self.new.image ≡ self.old.image }
        ensures place { self.new.at ≡ behind_of self.old.at 4 }
    {
        let number = word_at(self.image, self.at);
        self.pass(4);
        number
    }

    // The number in the 2 bytes at the reader's place, which moves behind them.
    pub(crate) fn half(&mut self) -> usize
        ensures number { NumberRead 2 self.old.image.now self.old.at result }
        ensures image { self.new.image ≡ self.old.image }
        ensures place { self.new.at ≡ behind_of self.old.at 2 }
    {
        let number = half_at(self.image, self.at);
        self.pass(2);
        number
    }

    // Behind `width` bytes. The place never wraps, so that nobody who moves a reader owes a proof.
    fn pass(&mut self, width: usize)
        ensures image { self.new.image ≡ self.old.image }
        ensures place { self.new.at ≡ behind_of self.old.at width }
    {
        self.at = self.at.saturating_add(width);
    }
}

//! The limits of a card.

ghost use Rattle.std.specs.Prelude.{◌≡◌, true};
ghost use Rattle.jc_machine.specs.Limits.{are_limits};

/// The limits of a card, and of one runtime call.
#[derive(Clone, Copy, Debug, PartialEq, Eq)]
pub struct Limits {
    /// The most objects: 45, which are the runtime's own, to 32,767.
    pub objects: u16,
    /// The most cells of all objects: 980, which the runtime's own take, to 65,535. An object takes one, and one for
    /// each component.
    pub cells: u16,
    /// The most frames of a call: 1 to 255.
    pub frames: u8,
    /// The most words of all frames of a call: 1 to 65,535. A frame takes words for its arguments, its other locals and
    /// its stack.
    pub frame_words: u16,
    /// The most steps of a call: 1 to 4,294,967,295.
    pub steps: u32,
}

/// The number of the runtime's own objects.
const OWN_OBJECTS: u16 = 45;

/// The number of their cells.
const OWN_CELLS: u16 = 980;

/// The most objects that a card may have.
const MOST_OBJECTS: u16 = 32_767;

impl Limits {
    /// The default limits: as many objects and cells as there may be, 64 frames of 1,024 words in all, and 100,000
    /// steps.
    pub const DEFAULT: Limits = Limits {
        objects: MOST_OBJECTS,
        cells: u16::MAX,
        frames: 64,
        frame_words: 1024,
        steps: 100_000,
    };

    /// Whether a card may have these limits.
    pub fn are_limits(&self) -> bool
        ensures { result ≡ are_limits self.now }
    {
        OWN_OBJECTS <= self.objects
            && self.objects <= MOST_OBJECTS
            && OWN_CELLS <= self.cells
            && 0 < self.frames
            && 0 < self.frame_words
            && 0 < self.steps
    }
}

//! What every thunk of a run depends on besides its registers and its view.

ghost use Rattle.std.specs.Prelude.{◌≡◌, Decides};
ghost use Rattle.std.specs.Arc.{arc_value};
ghost use Rattle.std.specs.Cmp.{partial_equiv_from_equiv};
ghost use Rattle.thunk_record.specs.Equal.{is_same_frame, is_same_frame-equiv};

use page_store::PageMap;
use rv_code::Code;
use std::marker::Model;
use std::sync::Arc;

/// The page map of a run, and the most turns of one thunk; and decoded pages, which only make its turns faster. A
/// clause sees a `Frame` of `thunk_spec`.
#[derive(Drop)]
pub struct Frame {
    pages: Arc<PageMap>,
    turns: u32,
    decoded: Arc<Code>,
}

impl Model for Frame {
    ghost use Rattle.std.specs.Arc.{arc_value};
    ghost use Rattle.thunk_spec.specs.Thunk.{Frame};

    ghost Value = { Frame };

    ghost view = { λ f. record { map = arc_value f.pages; fuel = f.turns } };
}

impl Frame {
    /// The frame of this page map and this fuel, with these decoded pages.
    pub fn new(map: Arc<PageMap>, fuel: u32, code: Arc<Code>) -> Frame
        ensures { result ≡ record { map = arc_value map; fuel = fuel } }
    {
        Frame {
            pages: map,
            turns: fuel,
            decoded: code,
        }
    }

    /// The page map.
    #[inline(always)]
    pub fn map(&self) -> &PageMap
        ensures { result.now ≡ self.now.map }
    {
        &self.pages
    }

    /// The shared page map.
    #[inline(always)]
    pub fn shared_map(&self) -> &Arc<PageMap>
        ensures { arc_value result.now ≡ self.now.map }
    {
        &self.pages
    }

    /// The most turns of one thunk.
    #[inline(always)]
    pub fn fuel(&self) -> u32
        ensures { result ≡ self.now.fuel }
    {
        self.turns
    }

    /// The decoded pages, by slot. Nothing is promised of them: a user of one checks whether a view has its bytes.
    #[inline(always)]
    pub fn code(&self) -> &Code {
        &self.decoded
    }
}

/// Two frames are equal if they have the same page map and the same fuel.
impl PartialEq for Frame {
    ghost eq = { is_same_frame };

    ghost laws = { partial_equiv_from_equiv is_same_frame-equiv };

    fn eq(&self, other: &Frame) -> bool
        ensures eq { result ≡ is_same_frame self.now other.now }
        ensures same { Decides result (self.now ≡ other.now) }
    {
        self.turns == other.turns && *self.map() == *other.map()
    }
}

impl Eq for Frame {
    ghost laws = { is_same_frame-equiv };
}

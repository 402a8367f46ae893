//! What pages are drawn on.
ghost use Rattle.std.specs.Prelude.{IfOk};
ghost use Rattle.multi_layout.specs.Pages.{IsSized};

use multi_layout::AreaLines;
use page_plane::Plane;
use sign_font::Sign;
use std::alloc::{AllocError, Global};

/// What the pages of one message after the other are drawn on (own).
#[derive(Drop)]
pub(crate) struct Canvas {
    pub(crate) plane: Plane,
    /// Room for the lines of an area.
    pub(crate) lines: AreaLines,
}

impl Canvas {
    /// A canvas of a sign's size. The error says that memory was refused.
    #[inline(never)]
    pub(crate) fn new(alloc: Global, sign: &Sign) -> Result<Box<Canvas>, AllocError>
        ensures { IfOk result (λ canvas. IsSized canvas.value.plane sign.now) }
    {
        let Ok(plane) = Plane::new(alloc, sign.width(), sign.height()) else {
            return Err(AllocError);
        };
        Ok(Box::new(
            alloc,
            Canvas {
                plane,
                lines: AreaLines::new(),
            },
        )?)
    }
}

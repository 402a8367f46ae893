//! A file in GIF that is written picture by picture.
ghost use Rattle.std.specs.Prelude.{◌≡◌, ◌++◌, ◌∷◌, [], ◌+◌, ◌*◌, ◌<◌, ◌≤◌, Some, OnErr, OnOk, IfOk, length};
ghost use Rattle.std.specs.List.{All};
ghost use Rattle.gif.specs.Count.{film_octets};
ghost use Rattle.gif.specs.Reader.{film_of};
ghost use Rattle.gif.specs.Size.{most_octets};

use crate::file::{packed_picture, push_end, push_head};
use std::alloc::{AllocError, Global};
use std::marker::Model;

/// A file in GIF that has begun: its size in points, its palette, and the pictures so far.
#[derive(Drop)]
pub struct GifWriter {
    octets: Vec<u8>,
    width: u16,
    height: u16,
}

impl Model for GifWriter {
    ghost use Rattle.std.specs.Prelude.{◌≡◌, ◌≤◌, length};
    ghost use Rattle.gif.specs.Count.{film_octets};
    ghost use Rattle.gif.specs.Reader.{Film, film_so_far};
    ghost use Rattle.gif.specs.internal.Writing.{IsFilm};
    ghost use Rattle.gif.specs.Size.{most_octets};

    ghost Value = { Film };

    ghost view = { λ w. film_so_far w.octets.items };

    ghost invariant = { λ w. IsFilm w.width w.height w.octets.items × (length w.octets.items ≤ most_octets (film_so_far w.octets.items))
        × (length w.octets.items ≡ film_octets (film_so_far w.octets.items).pictures) };
}

impl GifWriter {
    /// A file without pictures, of this size in points, with red, green and blue of 16 colours, 0 to 255 each. The error says that memory
    /// was refused.
    pub fn new(
        alloc: Global,
        width: u16,
        height: u16,
        palette: &[u8],
    ) -> Result<GifWriter, AllocError>
        requires colours { length palette.now ≡ 48 }
        ensures { IfOk result (λ writer. writer ≡ record { width = width; height = height; palette = palette.now; pictures = [] }) }
    {
        let mut octets = Vec::new(alloc);
        push_head(&mut octets, width, height, palette)?;
        Ok(GifWriter {
            octets,
            width,
            height,
        })
    }

    /// Adds a picture that is shown for some hundredths of a second: the colours of its points, row by row from the top, and each row from
    /// the left. The error says that memory was refused; then the file is as it was.
    pub fn push(&mut self, alloc: Global, delay: u16, pixels: &[u8]) -> Result<(), AllocError>
        requires colours { All (λ pixel. pixel < 16) pixels.now }
        requires whole { length pixels.now ≡ self.old.width * self.old.height }
        ensures pictures { OnOk result (self.new.pictures ≡ self.old.pictures ++ record { delay = delay; pixels = pixels.now } ∷ []) }
        ensures size { OnOk result ((self.new.width ≡ self.old.width) × (self.new.height ≡ self.old.height)) }
        ensures palette { OnOk result (self.new.palette ≡ self.old.palette) }
        ensures refused { OnErr result (self.new ≡ self.old) }
    {
        let picture = packed_picture(alloc, self.width, self.height, delay, pixels)?;
        self.octets.extend_from_slice(&picture)?;
        Ok(())
    }

    /// The number of octets so far: at most 80, and for each picture two octets for each of its points, and 32.
    pub fn len(&self) -> usize
        ensures value { result ≡ film_octets self.now.pictures }
        ensures most { result ≤ most_octets self.now }
    {
        self.octets.len()
    }

    /// The file, which has one octet more. The error says that memory was refused.
    pub fn finish(mut self) -> Result<Vec<u8>, AllocError>
        ensures film { IfOk result (λ octets. film_of octets.items ≡ Some self) }
        ensures exact { IfOk result (λ octets. length octets.items ≡ film_octets self.pictures + 1) }
        ensures size { IfOk result (λ octets. length octets.items ≤ most_octets self + 1) }
    {
        push_end(&mut self.octets)?;
        Ok(self.octets)
    }
}

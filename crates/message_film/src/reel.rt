//! A film that is made a tenth of a second at a time.
ghost use Rattle.std.specs.Prelude.{◌≡◌, ◌≢◌, ◌++◌, [], ◌+◌, ◌*◌, ◌/◌, ◌<◌, ◌≤◌, false, true, OnErr, OnOk, IfOk, length, map, replicate};
ghost use Rattle.page_picture.specs.Palette.{palette};
ghost use Rattle.message_film.specs.Moving.{Plays};
ghost use Rattle.message_film.specs.Looks.{AreColours, FrontHasOctets, HasOctets, pending, picture_of, points_of};
ghost use Rattle.message_film.specs.Reel.{most_of_film};

use gif::GifWriter;
use page_picture::{dot_points, palette_of};
use std::alloc::{AllocError, Global};
use std::marker::Model;

/// The most tenths of a second for which one picture is shown, since its delay is a number of 16 bits in hundredths of a second.
const MOST_TENTHS: u16 = 6553;

/// A film that has begun: what a sign shows in one tenth of a second after the other.
#[derive(Drop)]
pub struct Reel {
    writer: GifWriter,
    side: u8,
    width: u16,
    height: u16,
    /// The colours of the picture that isn't written yet, and in how many tenths of a second it is shown.
    colours: Vec<u8>,
    tenths: u16,
}

impl Model for Reel {
    ghost use Rattle.message_film.specs.Reel.{IsSoundReel, ReelData, reel_of};

    ghost Value = { ReelData };

    ghost view = { λ r. reel_of r.side r.width r.height r.writer r.colours.items r.tenths };

    ghost invariant = { λ r. IsSoundReel r.side r.width r.height r.writer r.colours.items r.tenths };
}

/// Whether colours are the same.
fn same(some: &[u8], others: &[u8]) -> bool
    ensures same { result ≡ true → some.now ≡ others.now }
    ensures other { result ≡ false → some.now ≢ others.now }
{
    some == others
}

/// Writes a picture of colours that are shown for some tenths of a second, if that is any time.
fn write(
    alloc: Global,
    writer: &mut GifWriter,
    side: u8,
    width: u16,
    height: u16,
    colours: &[u8],
    tenths: u16,
) -> Result<(), AllocError>
    requires size { (writer.old.width ≡ side * width) × (writer.old.height ≡ side * height) }
    requires few { tenths ≤ 6553 }
    requires whole { 0 < tenths → AreColours width height colours.now }
    ensures pictures { OnOk result
        (writer.new.pictures ≡ writer.old.pictures ++ map (picture_of side width height) (pending colours.now tenths)) }
    ensures size { OnOk result ((writer.new.width ≡ writer.old.width) × (writer.new.height ≡ writer.old.height)) }
    ensures palette { OnOk result (writer.new.palette ≡ writer.old.palette) }
    ensures refused { OnErr result (writer.new ≡ writer.old) }
{
    if tenths > 0 {
        let points = dot_points(alloc, colours, width, height, side)?;
        writer.push(alloc, 10 * tenths, &points)?;
    }
    Ok(())
}

impl Reel {
    /// A film of a sign of this size in pixels that shows nothing yet, with `side` by `side` points for each pixel. With `classic` the
    /// palette has the ten classic colours, and else all but 0 is amber. The error says that memory was refused.
    pub fn new(
        alloc: Global,
        side: u8,
        width: u16,
        height: u16,
        classic: bool,
    ) -> Result<Reel, AllocError>
        requires side { side ≤ 16 }
        requires size { (width ≤ 1024) × (height ≤ 128) }
        ensures { IfOk result
            (λ reel. reel ≡ record { side = side; width = width; height = height; palette = palette classic; points = []; left = 0 }) }
    {
        let palette = palette_of(alloc, classic)?;
        let scale = u16::from(side);
        let writer = GifWriter::new(alloc, scale * width, scale * height, &palette)?;
        Ok(Reel {
            writer,
            side,
            width,
            height,
            colours: Vec::new(alloc),
            tenths: 0,
        })
    }

    /// Shows the colours of all pixels, 0 to 9, row by row, in the next tenth of a second. The error says that memory was refused; then the
    /// film is as it was.
    pub fn push(&mut self, alloc: Global, colours: Vec<u8>) -> Result<(), AllocError>
        requires { AreColours self.old.width self.old.height colours.items }
        ensures points { OnOk result
            (self.new.points ≡ self.old.points ++ replicate 10 (points_of self.old.side self.old.width self.old.height colours.items)) }
        ensures size { OnOk result
            ((self.new.side ≡ self.old.side) × (self.new.width ≡ self.old.width) × (self.new.height ≡ self.old.height)) }
        ensures palette { OnOk result (self.new.palette ≡ self.old.palette) }
        ensures refused { OnErr result (self.new ≡ self.old) }
    {
        if self.tenths < MOST_TENTHS && same(&self.colours, &colours) {
            self.tenths += 1;
            return Ok(());
        }
        write(
            alloc,
            &mut self.writer,
            self.side,
            self.width,
            self.height,
            &self.colours,
            self.tenths,
        )?;
        self.colours = colours;
        self.tenths = 1;
        Ok(())
    }

    /// The number of octets that are written so far, one less than a file of these pictures has: at most 80, and two for each point and 32
    /// in each tenth of a second.
    pub fn len(&self) -> usize
        ensures front { FrontHasOctets self.now.side self.now.width self.now.height self.now.points (result + 1) }
        ensures most { result ≤ most_of_film self.now.side self.now.width self.now.height (length self.now.points / 10) }
    {
        self.writer.len()
    }

    /// The film as a file in GIF, each picture of which is shown for at least a tenth of a second. The error says that memory was refused.
    pub fn finish(mut self, alloc: Global) -> Result<Vec<u8>, AllocError>
        ensures plays { IfOk result
            (λ octets. Plays (self.side * self.width) (self.side * self.height) self.palette self.points octets.items) }
        ensures exact { IfOk result
            (λ octets. HasOctets self.side self.width self.height self.points (length octets.items)) }
        ensures size { IfOk result
            (λ octets. length octets.items ≤ most_of_film self.side self.width self.height (length self.points / 10) + 1) }
    {
        write(
            alloc,
            &mut self.writer,
            self.side,
            self.width,
            self.height,
            &self.colours,
            self.tenths,
        )?;
        let octets = self.writer.finish()?;
        Ok(octets)
    }
}

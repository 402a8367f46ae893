//! The parts of a file in GIF.
ghost use Rattle.std.specs.Prelude.{◌≡◌, ◌++◌, ◌∷◌, [], ◌<◌, ◌≤◌, ◌+◌, ◌*◌, ◌/◌, ◌%◌, OnOk, IfOk, length};
ghost use Rattle.std.specs.List.{All};
ghost use Rattle.gif.specs.Gif.{GrewBy, IsBlocks, IsPicture, head, picture_head};
ghost use Rattle.gif.specs.Count.{block_octets, picture_octets};
ghost use Rattle.gif.specs.Size.{most_of_picture};

use crate::lzw::lzw_data;
use std::alloc::{AllocError, Global};

/// Appends a number in two octets, the lower one first.
fn push_word(octets: &mut Vec<u8>, number: u16) -> Result<(), AllocError>
    ensures { OnOk result (octets.new.items ≡ octets.old.items ++ number % 256 ∷ number / 256 ∷ []) }
{
    octets.push((number % 256) as u8)?;
    octets.push((number / 256) as u8)?;
    Ok(())
}

/// Appends what a file begins with: the size in points, and red, green and blue of 16 colours.
#[tactic(auto, unfolding(crate::specs::Gif::head))]
pub(crate) fn push_head(
    octets: &mut Vec<u8>,
    width: u16,
    height: u16,
    palette: &[u8],
) -> Result<(), AllocError>
    requires { length palette.now ≡ 48 }
    ensures { OnOk result (octets.new.items ≡ octets.old.items ++ head width height palette.now) }
{
    octets.extend_from_slice(b"GIF89a")?;
    push_word(octets, width)?;
    push_word(octets, height)?;
    octets.extend_from_slice(&[179, 0, 0])?;
    octets.extend_from_slice(palette)?;
    octets.extend_from_slice(b"\x21\xff\x0bNETSCAPE2.0\x03\x01\x00\x00\x00")
}

/// Appends what a picture begins with.
#[tactic(auto, unfolding(crate::specs::Gif::picture_head))]
fn push_picture_head(
    octets: &mut Vec<u8>,
    width: u16,
    height: u16,
    delay: u16,
) -> Result<(), AllocError>
    ensures { OnOk result (octets.new.items ≡ octets.old.items ++ picture_head width height delay) }
{
    octets.extend_from_slice(&[
        33,
        249,
        4,
        4,
        (delay % 256) as u8,
        (delay / 256) as u8,
        0,
        0,
        44,
        0,
        0,
        0,
        0,
        (width % 256) as u8,
        (width / 256) as u8,
        (height % 256) as u8,
        (height / 256) as u8,
        0,
        4,
    ])
}

/// Appends data in blocks.
fn push_blocks(octets: &mut Vec<u8>, content: &[u8]) -> Result<(), AllocError>
    ensures blocks { OnOk result (GrewBy (IsBlocks content.now) octets.old.items octets.new.items) }
    ensures size { OnOk result (length octets.new.items ≡ length octets.old.items + block_octets (length content.now)) }
{
    let mut start = 0;
    while start < content.len() {
        let count = (content.len() - start).min(255);
        octets.push(count as u8)?;
        octets.extend_from_slice(&content[start..start + count])?;
        start += count;
    }
    octets.push(0)?;
    Ok(())
}

/// A picture that is shown for some hundredths of a second: its points, each one of 16 colours.
pub(crate) fn packed_picture(
    alloc: Global,
    width: u16,
    height: u16,
    delay: u16,
    pixels: &[u8],
) -> Result<Vec<u8>, AllocError>
    requires colours { All (λ pixel. pixel < 16) pixels.now }
    requires whole { length pixels.now ≡ width * height }
    ensures picture { IfOk result (λ octets. IsPicture width height delay pixels.now octets.items) }
    ensures size { IfOk result (λ octets. length octets.items ≤ most_of_picture (width * height)) }
    ensures exact { IfOk result (λ octets. length octets.items ≡ picture_octets pixels.now) }
{
    let content = lzw_data(alloc, pixels)?;
    let mut octets = Vec::new(alloc);
    push_picture_head(&mut octets, width, height, delay)?;
    push_blocks(&mut octets, &content)?;
    Ok(octets)
}

/// Appends what a file ends with.
pub(crate) fn push_end(octets: &mut Vec<u8>) -> Result<(), AllocError>
    ensures { OnOk result (octets.new.items ≡ octets.old.items ++ 59 ∷ []) }
{
    octets.push(59)?;
    Ok(())
}

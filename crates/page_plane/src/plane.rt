//! A bit plane over its octets.

ghost use Rattle.std.specs.Prelude.{◌≡◌, ℕ, ◌+◌, ◌*◌, ◌<◌, ◌≤◌, false, if◌then◌else◌, length, IfOk};
ghost use Rattle.step_count.specs.Count.{raised};
ghost use Rattle.page_plane.specs.Plane.{is_lit};
ghost use Rattle.page_plane.specs.Octets.{bit_place, row_octets, octet_count, is_bit_set};
ghost use Rattle.page_plane.specs.Put.{is_put, is_block_put};

use crate::memory::Memory;
use crate::octets::{bit, bit_place, fill_rows, put_rows, row_len};
use std::alloc::Global;
use std::marker::Model;
use step_count::raised;

/// One bit plane of a page: pixels that are on or off, and how many steps were taken over them (own).
///
/// A step is one octet filled or one row put. At `u64::MAX` the count stays as it is.
#[derive(Drop)]
pub struct Plane {
    width: u16,
    height: u16,
    octets: Vec<u8>,
    steps: u64,
}

impl Model for Plane {
    ghost use Rattle.page_plane.specs.Plane.{BitPlane};
    ghost use Rattle.page_plane.specs.Octets.{stored_plane, IsStored};

    ghost Value = { BitPlane };

    ghost view = { λ p. stored_plane p.width p.height p.steps p.octets.items };

    ghost invariant = { λ p. IsStored p.width p.height p.octets.items };
}

impl Plane {
    /// A plane of `w` by `h` pixels, `w` from 1 to 1,024 and `h` from 1 to 128, with every pixel off and no
    /// step taken. The answer is `Memory` if the memory for its octets was refused.
    pub fn new(alloc: Global, w: u16, h: u16) -> Result<Plane, Memory>
        requires width { (1 ≤ w) × (w ≤ 1024) }
        requires height { (1 ≤ h) × (h ≤ 128) }
        ensures width { IfOk result (λ plane. plane.width ≡ w) }
        ensures height { IfOk result (λ plane. plane.height ≡ h) }
        ensures steps { IfOk result (λ plane. plane.steps ≡ 0) }
        ensures pixels { IfOk result (λ plane. (x y : ℕ) → is_lit plane x y ≡ false) }
    {
        let len = row_len(w) * usize::from(h);
        let Ok(octets) = Vec::from_elem(alloc, 0u8, len) else {
            return Err(Memory);
        };
        Ok(Plane {
            width: w,
            height: h,
            octets,
            steps: 0,
        })
    }

    /// Makes every pixel `on`. It takes as many steps as the plane has octets, `(w + 7) / 8 * h`.
    pub fn fill(&mut self, on: bool)
        ensures pixels { (x y : ℕ) → x < self.old.width → y < self.old.height → is_lit self.new x y ≡ on }
        ensures width { self.new.width ≡ self.old.width }
        ensures height { self.new.height ≡ self.old.height }
        ensures steps { self.new.steps ≡ raised self.old.steps (octet_count self.old) }
    {
        self.steps = raised(self.steps, self.octets.len() as u64);
        fill_rows(&mut self.octets, self.width, self.height, on);
    }

    /// Puts the first `width` pixels of a row at column `x` of row `y`, in one step. Bit 63 is for column `x`, bit 62 for the
    /// next, and so on. If a bit is set, its pixel becomes `on`, and every other pixel stays. The row must lie inside the
    /// plane. A width of 0, which is allowed, changes no pixel.
    pub fn put_row(&mut self, x: u16, y: u16, width: u8, bits: u64, on: bool)
        requires width { width ≤ 64 }
        requires column { x + width ≤ self.old.width }
        requires row { y < self.old.height }
        ensures pixels { (column row : ℕ)
            → is_lit self.new column row ≡ (if is_put x y width bits column row then on else is_lit self.old column row) }
        ensures width { self.new.width ≡ self.old.width }
        ensures height { self.new.height ≡ self.old.height }
        ensures steps { self.new.steps ≡ raised self.old.steps 1 }
    {
        self.put_rows(x, y, width, &[bits], on);
    }

    /// Puts the first `width` pixels of each of these rows, the first at column `x` of row `y` and each other under the one
    /// before, in one step a row. The bits of a row are those of `put_row`: if a bit is set, its pixel becomes `on`, and every
    /// other pixel stays. All rows must lie inside the plane. No rows, and a width of 0, which are allowed, change no pixel.
    pub fn put_rows(&mut self, x: u16, y: u16, width: u8, rows: &[u64], on: bool)
        requires width { width ≤ 64 }
        requires column { x + width ≤ self.old.width }
        requires row { y + length rows.now ≤ self.old.height }
        ensures pixels { (column row : ℕ)
            → is_lit self.new column row ≡ (if is_block_put x y width rows.now column row then on else is_lit self.old column row) }
        ensures width { self.new.width ≡ self.old.width }
        ensures height { self.new.height ≡ self.old.height }
        ensures steps { self.new.steps ≡ raised self.old.steps (length rows.now) }
    {
        self.steps = raised(self.steps, rows.len() as u64);
        put_rows(&mut self.octets, self.width, x, y, width, rows, on);
    }

    /// Whether a pixel is on. It must lie inside the plane.
    pub fn pixel(&self, x: u16, y: u16) -> bool
        requires column { x < self.now.width }
        requires row { y < self.now.height }
        ensures { result ≡ is_lit self.now x y }
    {
        let place = bit_place(self.width, x, y);
        bit(&self.octets, place)
    }

    /// The octets of row `y`, which must lie inside the plane. The leftmost pixel is the highest bit of the first octet, and
    /// the spare bits of the last octet are 0.
    pub fn row(&self, y: u16) -> &[u8]
        requires { y < self.now.height }
        ensures count { length result.now ≡ row_octets self.now.width }
        ensures pixels { (x : ℕ) → x < self.now.width → is_bit_set result.now x ≡ is_lit self.now x y }
        ensures spare { (x : ℕ) → self.now.width ≤ x → is_bit_set result.now x ≡ false }
    {
        let len = row_len(self.width);
        let start = usize::from(y) * len;
        &self.octets[start..start + len]
    }

    /// The octets of all rows, from the top: those of each row are as [`Plane::row`] gives them.
    pub fn octets(&self) -> &[u8]
        ensures count { length result.now ≡ octet_count self.now }
        ensures pixels { (x y : ℕ) → x < self.now.width → y < self.now.height
            → is_bit_set result.now (bit_place self.now.width x y) ≡ is_lit self.now x y }
        ensures spare { (x y : ℕ) → self.now.width ≤ x → x < 8 * row_octets self.now.width → y < self.now.height
            → is_bit_set result.now (bit_place self.now.width x y) ≡ false }
    {
        self.octets.as_slice()
    }

    /// The width in pixels, 1 to 1,024, which never changes.
    pub fn width(&self) -> u16
        ensures value { result ≡ self.now.width }
        ensures range { (1 ≤ result) × (result ≤ 1024) }
    {
        self.width
    }

    /// The height in pixels, 1 to 128, which never changes.
    pub fn height(&self) -> u16
        ensures value { result ≡ self.now.height }
        ensures range { (1 ≤ result) × (result ≤ 128) }
    {
        self.height
    }

    /// The number of steps so far. It never falls, and `u64::MAX` means that many or more.
    pub fn steps(&self) -> u64
        ensures { result ≡ self.now.steps }
    {
        self.steps
    }
}

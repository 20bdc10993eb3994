ghost use Rattle.std.specs.Prelude.{◌≤◌, length};

use pb_image::Image;
use std::alloc::{AllocError, Global};

/// A device that a crash left.
#[derive(Drop)]
pub struct Left {
    pub cut: u32,
    pub pick: u64,
    pub device: Image,
}

/// The devices that a crash at a moment leaves: at each cut, those of these picks. Each has room for eight operations.
pub fn left_at(
    alloc: Global,
    image: &Image,
    moment: u32,
    picks: &[u64],
) -> Result<Vec<Left>, AllocError>
    requires { moment ≤ length image.now.log }
{
    let (least, greatest) = image.cuts(moment);
    let mut all = Vec::new(alloc);
    for cut in least..=greatest {
        for &pick in picks {
            let device = image.after_crash(alloc, moment, cut, pick, 8)?;
            all.push(Left { cut, pick, device })?;
        }
    }
    Ok(all)
}

/// The device that a crash at a moment leaves at a cut, with this room. None where the device's log has no such moment, or the moment no
/// such cut.
pub fn crash_left(
    alloc: Global,
    image: &Image,
    (moment, cut): (u32, u32),
    pick: u64,
    room: u32,
) -> Result<Option<Image>, AllocError> {
    if moment as usize > image.log().len() {
        return Ok(None);
    }
    let (least, greatest) = image.cuts(moment);
    if cut < least || greatest < cut {
        return Ok(None);
    }
    Ok(Some(image.after_crash(alloc, moment, cut, pick, room)?))
}

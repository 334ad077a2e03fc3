ghost use Rattle.std.specs.Prelude.{◌≡◌, ◌<◌, length};
ghost use Rattle.sector_images.specs.Formats.{row};
ghost use Rattle.flux_trial.specs.Image.{image_byte, trial_image};

use sector_images::{Format, tracks_keep_bounds};

/// Fills a slice with the image of a trial; it has an image's bytes in number.
pub fn trial_image(format: Format, seed: u32, image: &mut [u8])
    requires { length image.old ≡ (row format).image_size }
    ensures { image.new ≡ trial_image format seed }
{
    tracks_keep_bounds();
    for place in 0..image.len() {
        image[place] = image_byte(seed, place as u32);
    }
}

/// The byte at a place of the image.
fn image_byte(seed: u32, place: u32) -> u8
    requires { place < 16777216 }
    ensures { result ≡ image_byte seed place }
{
    let place = u64::from(place);
    ((u64::from(seed) + 167 * place + 13 * (place / 256)) % 256) as u8
}

// What a load is to say, by the file read apart.
use audits::lengths;
use images::memory::Image;
use images::packing::Answer;
use images::refusals::Refusal;
use plainmap::{PlainMap, loads};

// What a load of a file is to say, into memory of an image's lengths. The map becomes that of the file's labels, an
// empty one where the load is to be refused.
pub fn judge(image: &Image, file: &[u8], map: &mut PlainMap) -> Answer {
    *map = empty(image);
    match read(image, file, map) {
        Ok(labels) => Answer::Loaded(labels),
        Err(refusal) => {
            *map = empty(image);
            Answer::refused(refusal)
        }
    }
}

fn read(image: &Image, file: &[u8], map: &mut PlainMap) -> Result<usize, Refusal> {
    lengths::admit_lent(image)?;
    loads::read(file, map)
}

fn empty(image: &Image) -> PlainMap {
    PlainMap::new(image.sizes.slots, image.sizes.width)
}

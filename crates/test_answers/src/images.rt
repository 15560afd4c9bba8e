// A request of an image: its table, the number of its check, and the entries as a part of it.
use crate::STDIN_FILENO;
use crate::put::{put_answer, put_bytes, put_number, put_table};
use crate::wire::next_number;

// Some more than the longest image that is read.
const IMAGE_PLACES: usize = 65600;

fn put_all(image: &[u8], buffer: &mut [u8]) -> usize {
    let loaded = image::read(image);
    let told = put_answer(&loaded, buffer, 0);
    let shown = put_table(&loaded.unwrap_or(table::no_table()), buffer, told);
    let checked = put_number(&u64::from(c_images::check(image)), buffer, shown);
    put_bytes(image::entries(image), buffer, checked)
}

// The image fills what is lent, or the input ends in it.
fn taken_whole(image: &mut [u8], buffer: &mut [u8]) -> Option<usize> {
    if io::read_full(STDIN_FILENO, image) < image.len() {
        return None;
    }
    Some(put_all(image, buffer))
}

pub(crate) fn answered(buffer: &mut [u8]) -> Option<usize> {
    let length = next_number();
    if (IMAGE_PLACES as u64) < length {
        return None;
    }
    let mut space = [0u8; IMAGE_PLACES];
    taken_whole(&mut space[..length as usize], buffer)
}

// Each call on a table image as C reads its answer: a refusal as a number, the entries' part as an offset and a length. The table is still
// handed on by value.
#![tactic(auto)]

ghost use Rattle.rules.specs.Calls.{ImageChecked};
ghost use Rattle.c_images.specs.Clauses.{ReadInPlace, EntriesPlaced, WrittenInPlace};

use answer_number::number_of;
use image_reader::read_trailer;
use rules::Table;

// What reading an image gives: the number of its answer, because C reads it, and the table, because a refused image stores one too.
#[derive(Clone, Copy)]
pub struct Reading {
    pub refusal: u32,
    pub table: Table,
}

// Where the entries lie in the caller's own image: the empty part at the front where it is refused.
#[repr(C)]
#[derive(Clone, Copy)]
pub struct Part {
    pub refusal: u32,
    pub offset: usize,
    pub length: usize,
}

// 0, or the smallest number of refusal, for every image, one of no bytes included.
pub fn check(image: &[u8]) -> u32
    ensures { ImageChecked image.now result }
{
    number_of(&image::read(image))
}

// The table of an image, or one of zeros where it is refused.
pub fn read(image: &[u8]) -> Reading
    ensures { ReadInPlace image.now result.table result.refusal }
{
    let loaded = image::read(image);
    Reading {
        refusal: number_of(&loaded),
        table: loaded.unwrap_or(table::no_table()),
    }
}

// Where the entries lie, between the offset and the trailer.
pub fn entries(image: &[u8]) -> Part
    ensures { EntriesPlaced image.now result }
{
    match image::read(image) {
        Ok(_) => {
            let offset = read_trailer(image).offset;
            Part {
                refusal: 0,
                offset,
                length: image.len() - 12 - offset,
            }
        }
        Err(refusal) => Part {
            refusal: u32::from(refusal),
            offset: 0,
            length: 0,
        },
    }
}

// A table's image at the front of a lent buffer; a refusal changes no byte.
pub fn write(table: Table, buffer: &mut [u8]) -> u32
    ensures { WrittenInPlace table buffer.old buffer.new result }
{
    number_of(&image::write(table, buffer))
}

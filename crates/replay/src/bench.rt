// Where numbers are read from, and where answers go.
use crate::reader::Reader;
use crate::writer::Writer;

#[derive(Drop)]
pub struct Bench {
    pub reader: Reader,
    pub writer: Writer,
}

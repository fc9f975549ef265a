// What a look-up is lent.
use disk::record::RECORD;

// A view of what is lent, which is only looked at.
#[derive(Clone, Copy)]
pub struct View<'a> {
    pub card: &'a [u8],
    pub queue: &'a [u8],
    pub journal: &'a [u8],
    pub rec: &'a [u8; RECORD],
    pub number: usize,
}

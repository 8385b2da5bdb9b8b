// What is written: a lent slice, and how far.

// A lent slice, and the place in it at which the next byte is put.
#[derive(Drop)]
pub struct Out<'a> {
    pub bytes: &'a mut [u8],
    pub at: usize,
}

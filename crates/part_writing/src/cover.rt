// What a part's lines of removal say, as the writer takes it.
ghost use Rattle.std.specs.Prelude.{◌<◌, length};

// What a part's lines of removal say: the removal, and the numbers of the parts that hold this one, which are not more than 32 bits count.
#[derive(Clone, Copy)]
pub struct Cover<'a> {
    pub removal: u32,
    pub holders: &'a [u32],
    pub ghost few: { length holders.now < 4294967296 },
}
